// The extent of an object, written and cleared, with the figures of the sections it lies in made unknown: they are found anew at the end of
// the call (`renew`).

#![tactic(auto)]

ghost use Rattle.std.specs.Prelude.{◌≡◌, true, not, ◌+◌, ◌-◌, ◌/◌, ◌<◌, ◌≤◌, length};
ghost use Rattle.bitmap.specs.Bit.{one, set_bit, fill_bits};
ghost use Rattle.rules.specs.Heap.{is_blocks, section_length, section_count};
ghost use Rattle.section_figures.specs.Figures.{Coherent};
ghost use Rattle.section_extents.specs.Forgotten.{Forgotten};

use section_figures::{MAX_SECTION, UNKNOWN};
use types::Ref;

// The number of the section that block i lies in.
fn section_of(blocks: usize, i: usize) -> usize
    requires { i < blocks }
    ensures { result ≡ i / section_length blocks }
{
    if blocks < MAX_SECTION {
        0
    } else {
        i / MAX_SECTION
    }
}

// The figures of the sections in which the n blocks from block i on lie become unknown.
fn forget(blocks: usize, sections: &mut [Ref], i: usize, n: usize)
    requires { (is_blocks blocks ≡ true) × (length sections.old ≡ section_count blocks) × (1 ≤ n) × (i + n ≤ blocks) }
    ensures { Forgotten blocks i n sections.old sections.new }
{
    let first = section_of(blocks, i);
    let last = section_of(blocks, i + n - 1);
    sections[first..last + 1].fill(UNKNOWN);
}

// The n blocks from block i on become an object's, or free.
pub fn write_extent(
    blocks: usize,
    a: &mut [u8],
    b: &mut [u8],
    sections: &mut [Ref],
    i: usize,
    n: usize,
    used: bool,
)
    requires { Coherent blocks a.old sections.old × (length a.old ≡ blocks / 8) × (length b.old ≡ blocks / 8)
        × (1 ≤ n) × (i + n ≤ blocks) }
    ensures { (a.new ≡ fill_bits a.old i n (one used)) × (b.new ≡ set_bit b.old (i + n - 1) (one (not used)))
        × Coherent blocks a.new sections.new }
{
    forget(blocks, sections, i, n);
    map_extents::write_extent(a, b, i, n, used);
}
