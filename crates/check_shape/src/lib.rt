// Number 1: the number of blocks, the width, the number of roots and the lengths of the lent buffers.

#![tactic(auto)]

ghost use Rattle.std.specs.Prelude.{◌≡◌};
ghost use Rattle.rules.specs.Heap.{is_blocks, shape};

use types::{MAX_BLOCKS, MAX_ROOTS, MAX_WIDTH};

// Whether n is a power of two from 8 to the largest heap.
fn is_blocks(n: usize) -> bool
    ensures { result ≡ is_blocks n }
{
    n.is_power_of_two() && (8..=MAX_BLOCKS).contains(&n)
}

// Whether everything is as long as it has to be.
#[tactic(auto, using(rules::proofs::Shape::blocks_le), unfolding(rules::specs::Heap::shape, rules::specs::Tools::all))]
pub fn is_shaped(
    blocks: usize,
    width: usize,
    a: usize,
    b: usize,
    counts: usize,
    cells: usize,
    roots: usize,
    waiting: usize,
    sections: usize,
    d: usize,
    marks: usize,
    list: usize,
) -> bool
    ensures { result ≡ shape blocks width a b counts cells roots waiting sections d marks list }
{
    is_blocks(blocks)
        && (1..=MAX_WIDTH).contains(&width)
        && (1..=MAX_ROOTS).contains(&roots)
        && a == blocks / 8
        && b == blocks / 8
        && counts == width * (blocks / 8)
        && cells == 4 * blocks
        && waiting == blocks
        && sections == section_figures::section_count(blocks)
        && d == blocks / 8
        && marks == blocks / 8
        && list == blocks + 1
}
