// The block that a reference names.
ghost use Rattle.std.specs.Prelude.{◌≡◌, ◌+◌, ◌<◌, ◌≤◌, IfSome, IsNone};

use types::Ref;

// The block that v names, if any: 0 names none, and a number past the last block none either.
pub fn named_block(blocks: usize, v: Ref) -> Option<usize>
    ensures some { IfSome result (λ block. (block + 1 ≡ v) × (block < blocks)) }
    ensures none { IsNone result → 1 ≤ v → blocks < v }
{
    // Of 0 it is the largest number, past every block: one comparison serves both.
    let block = (v as usize).wrapping_sub(1);
    (block < blocks).then_some(block)
}
