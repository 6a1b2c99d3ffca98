// The full collection on an undamaged heap with a cleared waiting list, which it leaves cleared, and with no collection in small steps
// open: all is counted anew from the roots, and what is left at 0 is freed.

#![tactic(auto)]

ghost use Rattle.std.specs.Prelude.{◌≡◌, Ok, false};
ghost use Rattle.types.specs.Told.{came_of};
ghost use Rattle.rules.specs.Lent.{before, after, lent};
ghost use Rattle.rules_steps.specs.Steps.{is_open};
ghost use Rattle.rules_calls.specs.Calls.{Call};
ghost use Rattle.theory_memories.specs.Heaps.{Usable};
ghost use Rattle.theory.specs.Usable.{Worked};

use types::{Outcome, Ref};

// Collects.
pub fn collect(
    blocks: usize,
    width: usize,
    a: &mut [u8],
    b: &mut [u8],
    counts: &mut [u8],
    cells: &mut [Ref],
    roots: &[Ref],
    waiting: &mut [Ref],
    sections: &mut [Ref],
    d: &mut [u8],
    marks: &[u8],
    list: &[Ref],
) -> Outcome
    requires { Usable blocks width (lent a.old b.old counts.old cells.old roots.now waiting.old sections.old d.old marks.now list.now)
        × (is_open blocks (lent a.old b.old counts.old cells.old roots.now waiting.old sections.old d.old marks.now list.now) ≡ false) }
    ensures { Worked blocks width Call.collect
        (before a.old b.old counts.old cells.old roots.now waiting.old sections.old d.old marks.now list.now) (came_of (Ok result))
        (after a.new b.new counts.new cells.new roots.now waiting.new sections.new d.new marks.now list.now) }
{
    collect_mark::mark(blocks, width, b, counts, cells, roots, waiting, d);
    let freed = collect_sweep::sweep(blocks, width, a, b, counts, cells, sections, d);
    section_figures::renew(blocks, a, sections);
    Outcome {
        value: freed,
        freed,
        stuck: false, // counts are made anew, and nothing is told of them
    }
}
