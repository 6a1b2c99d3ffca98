// The search for a free chunk by sections: "Allocation of at most a section's length goes to the lowest section whose figure suffices.
// Longer ones search as before."

#![tactic(auto)]

ghost use Rattle.std.specs.Prelude.{◌≡◌, true, ℕ, ◌*◌, ◌^◌, ◌≤◌, length};
ghost use Rattle.rules.specs.Heap.{is_blocks};
ghost use Rattle.rules.specs.Sections.{figures, suffices_from};
ghost use Rattle.search_walk.specs.Search.{answered};
ghost use Rattle.section_search.specs.Search.{Found};

use search_chunk::{Searched, lowest_chunk};
use section_figures::{GROUP, group_bound, section_length};
use types::Ref;

// The lowest section whose figure is `size` or more. Groups in which none is are passed over at once, so `s` goes up by groups.
fn lowest_section(sections: &[Ref], size: usize) -> Option<usize>
    ensures { result ≡ answered (suffices_from (length sections.now) sections.now size 0) }
{
    let mut s = 0;
    while GROUP <= sections.len() - s && (group_bound(sections, s) as usize) < size {
        s += GROUP;
    }
    // No `find` or `position`, which take 1.3 to 1.7 times as long.
    for t in s..sections.len() {
        if size <= sections[t] as usize {
            return Some(t);
        }
    }
    None
}

// The lowest free chunk of `size` blocks, and how many blocks were looked at.
pub fn find_chunk(blocks: usize, a: &[u8], sections: &[Ref], size: usize) -> Searched
    requires by_index { (k : ℕ) × (size ≡ 2 ^ k) }
    requires blocks_value { (is_blocks blocks ≡ true) × (blocks ≤ 8 * length a.now) × (size ≤ blocks)
        × (sections.now ≡ figures blocks a.now) }
    ensures { (k : ℕ) → size ≡ 2 ^ k → Found blocks k a.now result.at result.looks }
{
    let length = section_length(blocks);
    if length < size {
        lowest_chunk(a, 0, blocks, size)
    } else if let Some(s) = lowest_section(sections, size) {
        let from = s * length;
        lowest_chunk(a, from, from + length, size)
    } else {
        Searched { at: None, looks: 0 }
    }
}
