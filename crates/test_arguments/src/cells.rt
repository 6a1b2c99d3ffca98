// The tests that every call on a cell begins with.
ghost use Rattle.std.specs.Prelude.{◌≡◌, [], ◌*◌, ◌≤◌, length};
ghost use Rattle.rules.specs.Heap.{memory, max_blocks};
ghost use Rattle.types.specs.Told.{tested};
ghost use Rattle.test_arguments.specs.Replies.{cell_test};

use map_objects::objects;
use types::Refusal;

// Whether an object starts at block `at`, and has a cell j.
pub fn cell_test(blocks: usize, a: &[u8], b: &[u8], at: usize, j: usize) -> Result<(), Refusal>
    requires { (blocks ≤ 8 * length a.now) × (blocks ≤ 8 * length b.now) × (blocks ≤ max_blocks) }
    ensures { tested result ≡ cell_test blocks (memory a.now b.now [] [] [] []) at j }
{
    if !objects::is_first(blocks, a, b, at) {
        return Err(Refusal::NoObject);
    }
    if 4 * objects::object_size(blocks, b, at) <= j {
        return Err(Refusal::BadCell);
    }
    Ok(())
}
