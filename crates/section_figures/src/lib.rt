// Sections of the heap (request U4): the size of the largest free chunk of each, read off the A-map.

#![tactic(auto)]

ghost use Rattle.std.specs.Prelude.{◌≡◌, true, ℕ, ◌+◌, ◌*◌, ◌/◌, ◌<◌, ◌≤◌, length, get_or, replicate};
ghost use Rattle.rules.specs.Heap.{is_blocks, section_length, section_count};
ghost use Rattle.rules.specs.Sections.{figure, figures, stale_figures};
ghost use Rattle.section_figures.specs.Figures.{Coherent, Renewed};

use section_halves::largest_free;
use types::Ref;

// The longest section, in blocks.
pub const MAX_SECTION: usize = 256;

// A figure that no section has: it has to be found anew.
pub const UNKNOWN: Ref = 65535;

// The length of a section, in blocks.
pub fn section_length(blocks: usize) -> usize
    ensures { result ≡ section_length blocks }
{
    blocks.min(MAX_SECTION)
}

// The number of sections: a heap of less than 256 blocks is one.
pub fn section_count(blocks: usize) -> usize
    requires { is_blocks blocks ≡ true }
    ensures { result ≡ section_count blocks }
{
    if blocks < MAX_SECTION {
        1
    } else {
        blocks / MAX_SECTION
    }
}

// The figure of section number s.
fn section_figure(blocks: usize, a: &[u8], s: usize) -> usize
    requires { (is_blocks blocks ≡ true) × (blocks ≤ 8 * length a.now) × (s < section_count blocks) }
    ensures { (result ≡ figure blocks a.now s) × (result ≤ 256) }
{
    let size = section_length(blocks);
    largest_free(a, s * size, size)
}

// Whether the list of figures differs from what the A-map says.
pub fn is_stale(blocks: usize, a: &[u8], sections: &[Ref]) -> bool
    requires { (is_blocks blocks ≡ true) × (blocks ≤ 8 * length a.now) × (length sections.now ≡ section_count blocks) }
    ensures { result ≡ stale_figures blocks a.now sections.now }
{
    sections.iter().enumerate().any(|(s, figure)| *figure as usize != section_figure(blocks, a, s))
}

// How many figures are looked at together.
pub const GROUP: usize = 16;

// The or of a group's figures, the first of which is number `from`: none of them is more. Since figures are powers of two, or 0, it
// comes to a power of two only where one of them does.
pub fn group_bound(sections: &[Ref], from: usize) -> Ref
    requires { from + 16 ≤ length sections.now }
    ensures { (s : ℕ) → from ≤ s → s < from + 16 → get_or sections.now s 0 ≤ result }
{
    let mut any = 0;
    for figure in &sections[from..from + GROUP] {
        any |= *figure;
    }
    any
}

// Finds the unknown figures anew from number `from` up to number `to`; those before are known.
fn renew_part(blocks: usize, a: &[u8], sections: &mut [Ref], from: usize, to: usize)
    requires { Renewed blocks a.now sections.old from × (blocks ≤ 8 * length a.now) × (from ≤ to)
        × (to ≤ length sections.old) }
    ensures { Renewed blocks a.now sections.new to }
{
    for s in from..to {
        if sections[s] == UNKNOWN {
            sections[s] = section_figure(blocks, a, s) as Ref;
        }
    }
}

// Finds the unknown figures anew. A group in which none is unknown is passed over at once.
pub fn renew(blocks: usize, a: &[u8], sections: &mut [Ref])
    requires { Coherent blocks a.now sections.old × (blocks ≤ 8 * length a.now) }
    ensures { sections.new ≡ figures blocks a.now }
{
    let groups = sections.len() / GROUP;
    for group in 0..groups {
        let s = group * GROUP;
        if UNKNOWN <= group_bound(sections, s) {
            renew_part(blocks, a, sections, s, s + GROUP);
        }
    }
    renew_part(blocks, a, sections, groups * GROUP, sections.len());
}

// The same after work that freed so many blocks: where it freed none, no figure is unknown, and the list is not looked at.
pub fn renew_after(blocks: usize, a: &[u8], sections: &mut [Ref], freed: usize)
    requires { Coherent blocks a.now sections.old × (blocks ≤ 8 * length a.now)
        × (freed ≡ 0 → sections.old ≡ figures blocks a.now) }
    ensures { sections.new ≡ figures blocks a.now }
{
    if freed != 0 {
        renew(blocks, a, sections);
    }
}

// The figures of a heap without objects: each section is one free chunk.
pub fn fill_free(blocks: usize, sections: &mut [Ref])
    requires { (is_blocks blocks ≡ true) × (length sections.old ≡ section_count blocks) }
    ensures { sections.new ≡ figures blocks (replicate (blocks / 8) 0) }
{
    sections.fill(section_length(blocks) as Ref);
}
