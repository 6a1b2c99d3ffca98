// The work of a copy into a second heap (request U14): the first heap is known to be undamaged with no collection open, and the second to
// have the right shape and as many roots. It is written only where each object has its place: 17 changes nothing.

#![tactic(auto)]

ghost use Rattle.std.specs.Prelude.{◌≡◌, true, false, ◌*◌, ◌≤◌, length};
ghost use Rattle.rules.specs.Heap.{is_blocks, section_count, shaped};
ghost use Rattle.rules.specs.Sections.{figures};
ghost use Rattle.rules.specs.Lent.{before, after, lent};
ghost use Rattle.rules_steps.specs.Steps.{is_open};
ghost use Rattle.rules_calls.specs.Calls.{Call};
ghost use Rattle.rules_calls.specs.Promise.{Promise};
ghost use Rattle.theory_memories.specs.Heaps.{Undamaged};

use map_objects::lists;
use section_figures::UNKNOWN;
use types::{Ref, Refusal, Reply, replies};

// Finds the figures of all sections.
fn find_figures(blocks: usize, a: &[u8], sections: &mut [Ref])
    requires { (is_blocks blocks ≡ true) × (blocks ≤ 8 * length a.now) × (length sections.old ≡ section_count blocks) }
    ensures { sections.new ≡ figures blocks a.now }
{
    sections.fill(UNKNOWN);
    section_figures::renew(blocks, a, sections);
}

// Copies. The collection at the end frees nothing: all that was written is reached. It counts the references, of which the copies' stuck
// counts say nothing. The value is the number of blocks in use.
pub fn copy(
    blocks: usize,
    width: usize,
    a: &[u8],
    b: &[u8],
    counts: &[u8],
    cells: &[Ref],
    roots: &[Ref],
    waiting: &[Ref],
    sections: &[Ref],
    d: &[u8],
    marks: &[u8],
    list: &[Ref],
    blocks2: usize,
    width2: usize,
    a2: &mut [u8],
    b2: &mut [u8],
    counts2: &mut [u8],
    cells2: &mut [Ref],
    roots2: &mut [Ref],
    waiting2: &mut [Ref],
    sections2: &mut [Ref],
    d2: &mut [u8],
    marks2: &mut [u8],
    list2: &mut [Ref],
) -> Reply
    requires { Undamaged blocks width (lent a.now b.now counts.now cells.now roots.now waiting.now sections.now d.now marks.now list.now)
        × (is_open blocks (lent a.now b.now counts.now cells.now roots.now waiting.now sections.now d.now marks.now list.now) ≡ false)
        × (shaped blocks2 width2 (lent a2.old b2.old counts2.old cells2.old roots2.old waiting2.old sections2.old d2.old marks2.old list2.old) ≡ true)
        × (length roots.now ≡ length roots2.old) }
    ensures { Promise blocks2 width2 (Call.copy_from blocks width
        (before a.now b.now counts.now cells.now roots.now waiting.now sections.now d.now marks.now list.now))
        (before a2.old b2.old counts2.old cells2.old roots2.old waiting2.old sections2.old d2.old marks2.old list2.old) result
        (after a2.new b2.new counts2.new cells2.new roots2.new waiting2.new sections2.new d2.new marks2.new list2.new) }
{
    if !copy_lists::write_lists(
        blocks, a, b, d, cells, roots, blocks2, width2, a2, b2, counts2, cells2, roots2, d2,
    ) {
        return Refusal::NoPlace.into();
    }
    lists::clear_all(waiting2);
    bitmap::fill_bytes(marks2, 0);
    lists::clear_all(list2);
    find_figures(blocks2, a2, sections2);
    work_collect::collect(
        blocks2, width2, a2, b2, counts2, cells2, roots2, waiting2, sections2, d2, marks2, list2,
    );
    replies::acceptance(blocks2 - bitmap::count_zeros(a2))
}
