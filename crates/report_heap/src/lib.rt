// The heap of a report, and the lengths of its buffers.

#![tactic(auto)]

ghost use Rattle.std.specs.Prelude.{◌≡◌};
ghost use Rattle.rules.specs.Lent.{after};
ghost use Rattle.report_heap.specs.Heap.{new_heap};

use types::Ref;

pub const BLOCKS: usize = 4096;

pub const WIDTH: usize = 3;

pub const ROOTS: usize = 64;

pub const MAP_BYTES: usize = BLOCKS / 8;

pub const COUNT_BYTES: usize = WIDTH * MAP_BYTES;

pub const CELLS: usize = 4 * BLOCKS;

// A section of so large a heap has 256 blocks.
pub const SECTIONS: usize = BLOCKS / 256;

pub const LIST: usize = BLOCKS + 1;

// Makes a new heap of the buffers. Their lengths are right, so that the format is accepted.
pub fn format(
    a: &mut [u8; MAP_BYTES],
    b: &mut [u8; MAP_BYTES],
    counts: &mut [u8; COUNT_BYTES],
    cells: &mut [Ref; CELLS],
    roots: &mut [Ref; ROOTS],
    waiting: &mut [Ref; BLOCKS],
    sections: &mut [Ref; SECTIONS],
    d: &mut [u8; MAP_BYTES],
    marks: &mut [u8; MAP_BYTES],
    list: &mut [Ref; LIST],
)
    ensures { after a.new b.new counts.new cells.new roots.new waiting.new sections.new d.new marks.new list.new ≡ new_heap }
{
    public_heap::format(
        BLOCKS, WIDTH, a, b, counts, cells, roots, waiting, sections, d, marks, list,
    );
}
