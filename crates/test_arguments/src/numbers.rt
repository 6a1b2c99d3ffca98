// The tests of a number write and of a number read, and the reply of a read (request U6).
ghost use Rattle.std.specs.Prelude.{◌≡◌, [], ◌*◌, ◌≤◌, length};
ghost use Rattle.rules.specs.Heap.{lent_memory, max_blocks};
ghost use Rattle.types.specs.Told.{replied, tested};
ghost use Rattle.test_arguments.specs.Replies.{number_test, read_reply};

use crate::cells;
use types::{Ref, Refusal};

// The tests of a number in cell j of the object at block `at`: it has to be data.
pub fn number_test(
    blocks: usize,
    a: &[u8],
    b: &[u8],
    d: &[u8],
    at: usize,
    j: usize,
) -> Result<(), Refusal>
    requires { (blocks ≤ 8 * length a.now) × (blocks ≤ 8 * length b.now) × (blocks ≤ max_blocks)
        × (blocks ≤ 8 * length d.now) }
    ensures { tested result ≡ number_test blocks (lent_memory a.now b.now [] [] [] [] [] d.now [] []) at j }
{
    cells::cell_test(blocks, a, b, at, j)?;
    if bitmap::get_bit(d, at) == 0 {
        return Err(Refusal::WrongKind);
    }
    Ok(())
}

// The reply of a read of the number in cell j of the data at block `at`.
pub fn read_reply(
    blocks: usize,
    a: &[u8],
    b: &[u8],
    cells: &[Ref],
    d: &[u8],
    at: usize,
    j: usize,
) -> Result<usize, Refusal>
    requires { (blocks ≤ 8 * length a.now) × (blocks ≤ 8 * length b.now) × (blocks ≤ max_blocks)
        × (blocks ≤ 8 * length d.now) × (length cells.now ≡ 4 * blocks) }
    ensures { replied result ≡ read_reply blocks
        (lent_memory a.now b.now [] cells.now [] [] [] d.now [] []) at j }
{
    number_test(blocks, a, b, d, at, j)?;
    Ok(cells[4 * at + j] as usize)
}
