// The tests of the two stores.
ghost use Rattle.std.specs.Prelude.{◌≡◌, [], ◌*◌, ◌≤◌, length};
ghost use Rattle.rules.specs.Heap.{memory, lent_memory, max_blocks};
ghost use Rattle.types.specs.Told.{tested};
ghost use Rattle.test_arguments.specs.Replies.{store_root_test, store_cell_test};

use crate::cells;
use map_objects::objects;
use types::{Ref, Refusal};

// The tests of a store in root r.
pub fn store_root_test(
    blocks: usize,
    a: &[u8],
    b: &[u8],
    roots: &[Ref],
    r: usize,
    v: usize,
) -> Result<(), Refusal>
    requires { (blocks ≤ 8 * length a.now) × (blocks ≤ 8 * length b.now) }
    ensures { tested result ≡ store_root_test blocks (memory a.now b.now [] [] roots.now []) r v }
{
    if roots.len() <= r {
        return Err(Refusal::BadRoot);
    }
    if !objects::is_reference(blocks, a, b, v) {
        return Err(Refusal::BadReference);
    }
    Ok(())
}

// The tests of a store in cell j of the object at block `at`, which may not be data (request U6).
pub fn store_cell_test(
    blocks: usize,
    a: &[u8],
    b: &[u8],
    d: &[u8],
    at: usize,
    j: usize,
    v: usize,
) -> Result<(), Refusal>
    requires { (blocks ≤ 8 * length a.now) × (blocks ≤ 8 * length b.now) × (blocks ≤ max_blocks)
        × (blocks ≤ 8 * length d.now) }
    ensures { tested result ≡ store_cell_test blocks (lent_memory a.now b.now [] [] [] [] [] d.now [] []) at j v }
{
    cells::cell_test(blocks, a, b, at, j)?;
    if bitmap::get_bit(d, at) == 1 {
        return Err(Refusal::WrongKind);
    }
    if !objects::is_reference(blocks, a, b, v) {
        return Err(Refusal::BadReference);
    }
    Ok(())
}
