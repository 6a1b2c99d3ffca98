// How much of each buffer the program `calls` lends. Wrong lengths are allowed, within the largest, so that each refusal can be met.

#![tactic(auto)]

ghost use Rattle.std.specs.Prelude.{◌≡◌, false, ◌/◌, ◌≤◌};
ghost use Rattle.rules.specs.Heap.{max_blocks};
ghost use Rattle.calls_lent.specs.Within.{Within};

use types::MAX_BLOCKS;

// The largest width and number of roots, one more than a heap may have; the longest section; the largest length of each buffer.
const MAX_WIDTH: usize = 5;

pub const MAX_ROOTS: usize = 65;

const MAX_SECTION: usize = 256;

pub const MAX_BYTES: usize = MAX_BLOCKS / 8;

pub const MAX_COUNTS: usize = MAX_WIDTH * MAX_BYTES;

pub const MAX_CELLS: usize = 4 * MAX_BLOCKS;

pub const MAX_SECTIONS: usize = MAX_BLOCKS / MAX_SECTION;

pub const MAX_LIST: usize = MAX_BLOCKS + 1;

pub const BUFFERS: usize = 10;

const LARGEST: [usize; BUFFERS] = [
    MAX_BYTES,
    MAX_BYTES,
    MAX_COUNTS,
    MAX_CELLS,
    MAX_ROOTS,
    MAX_BLOCKS,
    MAX_SECTIONS,
    MAX_BYTES,
    MAX_BYTES,
    MAX_LIST,
];

// Whether a heap asks for more than the largest.
pub fn is_too_large(blocks: usize, width: usize, roots: usize) -> bool
    ensures { result ≡ false → (blocks ≤ max_blocks) × (width ≤ 5) × (roots ≤ 65) }
{
    blocks > MAX_BLOCKS || width > MAX_WIDTH || roots > MAX_ROOTS
}

// The number of sections: one where there are fewer blocks than in the longest.
fn section_count(blocks: usize) -> usize
    requires { blocks ≤ max_blocks }
    ensures { result ≤ max_blocks / 256 }
{
    (blocks / MAX_SECTION).max(1)
}

// The lengths that belong to a heap's numbers; none where it is too large.
pub fn lengths(blocks: usize, width: usize, roots: usize) -> [usize; BUFFERS]
    ensures { Within result }
{
    if is_too_large(blocks, width, roots) {
        [0; BUFFERS]
    } else {
        [
            blocks / 8,
            blocks / 8,
            width * blocks / 8,
            4 * blocks,
            roots,
            blocks,
            section_count(blocks),
            blocks / 8,
            blocks / 8,
            blocks + 1,
        ]
    }
}

// Another length of a buffer; false where that is out of range.
pub fn set_length(lengths: &mut [usize; BUFFERS], buffer: usize, length: usize) -> bool
    requires { Within lengths.old }
    ensures { Within lengths.new }
{
    let fits = buffer < BUFFERS && length <= LARGEST[buffer];
    if fits {
        lengths[buffer] = length;
    }
    fits
}
