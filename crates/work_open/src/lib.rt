// The opening of a collection in small steps (request U8): the whole work of the call, once its tests are
// passed. It is lent the roots, and the mark map and the second list, which alone it writes.

#![tactic(auto)]

ghost use Rattle.std.specs.Prelude.{◌≡◌, ◌+◌, ◌*◌, ◌/◌, ◌≤◌, length};
ghost use Rattle.rules.specs.Heap.{max_blocks};
ghost use Rattle.work_open.specs.Opened.{Opened};

use types::{Ref, Reply, replies};

// What the roots name is marked and listed.
pub fn open_collection(blocks: usize, roots: &[Ref], marks: &mut [u8], list: &mut [Ref]) -> Reply
    requires { (blocks ≡ 8 * (blocks / 8)) × (blocks ≤ max_blocks) × (length marks.old ≡ blocks / 8)
        × (length list.old ≡ blocks + 1) }
    ensures { Opened blocks roots.now marks.old result marks.new list.new }
{
    step_list::name_all(blocks, roots, roots.len(), marks);
    step_list::write_list(blocks, marks, list);
    replies::acceptance(0)
}
