// The store in a cell on an undamaged heap with a cleared waiting list, which it leaves cleared: the whole work of the call, once its test is
// passed.

#![tactic(auto)]

ghost use Rattle.std.specs.Prelude.{◌≡◌, Ok};
ghost use Rattle.types.specs.Told.{came_of};
ghost use Rattle.rules.specs.Lent.{before, after, lent};
ghost use Rattle.rules_calls.specs.Calls.{Call};
ghost use Rattle.theory_memories.specs.Heaps.{Usable};
ghost use Rattle.theory.specs.Usable.{Worked};
ghost use Rattle.test_arguments.specs.Replies.{store_cell_test};

use types::{Outcome, Ref};

// Stores v in cell j of the object at block `at`. The passed test shows that v fits a cell. A store that freed nothing touched no figure of a
// section.
pub fn store_cell(
    blocks: usize,
    width: usize,
    a: &mut [u8],
    b: &mut [u8],
    counts: &mut [u8],
    cells: &mut [Ref],
    roots: &[Ref],
    waiting: &mut [Ref],
    sections: &mut [Ref],
    d: &mut [u8],
    marks: &mut [u8],
    list: &mut [Ref],
    at: usize,
    j: usize,
    v: usize,
) -> Outcome
    requires { Usable blocks width (lent a.old b.old counts.old cells.old roots.now waiting.old sections.old d.old marks.old list.old)
        × ((store_cell_test blocks
        (lent a.old b.old counts.old cells.old roots.now waiting.old sections.old d.old marks.old list.old) at j v).number ≡ 0) }
    ensures { Worked blocks width (Call.store_cell at j v)
        (before a.old b.old counts.old cells.old roots.now waiting.old sections.old d.old marks.old list.old) (came_of (Ok result))
        (after a.new b.new counts.new cells.new roots.now waiting.new sections.new d.new marks.new list.new) }
{
    let new = v as Ref;
    let c = 4 * at + j;
    let old = cells[c];
    if old == new {
        return Outcome {
            value: 0,
            freed: 0,
            stuck: false, // nothing is counted up
        };
    }
    let stuck = count_up::count_up(blocks, width, counts, new);
    cells[c] = new;
    let freed = step_release::let_go(
        blocks,
        width,
        a,
        b,
        counts,
        cells,
        waiting,
        sections,
        d,
        marks,
        list,
        (at + 1) as Ref,
        old,
        new,
    );
    section_figures::renew_after(blocks, a, sections, freed);
    Outcome {
        value: freed,
        freed,
        stuck,
    }
}
