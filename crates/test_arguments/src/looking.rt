// The reply of a look.
ghost use Rattle.std.specs.Prelude.{◌≡◌, [], ◌*◌, ◌/◌, ◌≤◌, length};
ghost use Rattle.rules.specs.Heap.{memory};
ghost use Rattle.test_arguments.specs.Replies.{look_reply};

use map_objects::objects;
use types::{Refusal, Reply};

// The reply of a look at block `at`.
pub fn look_reply(
    blocks: usize,
    width: usize,
    a: &[u8],
    b: &[u8],
    counts: &[u8],
    at: usize,
) -> Reply
    requires { (blocks ≡ 8 * (blocks / 8)) × (blocks ≤ 8 * length a.now) × (blocks ≤ 8 * length b.now) × (width ≤ 4)
        × (length counts.now ≡ width * (blocks / 8)) }
    ensures { result ≡ look_reply blocks width (memory a.now b.now counts.now [] [] []) at }
{
    if !objects::is_first(blocks, a, b, at) {
        return Refusal::NoObject.into();
    }
    let size = objects::object_size(blocks, b, at);
    let count = planes::get_count(counts, blocks / 8, width, at);
    Reply {
        number: 0,
        value: size,
        second: count as usize,
    }
}
