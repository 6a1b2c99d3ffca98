// The store in a root on an undamaged heap with a cleared waiting list, which it leaves cleared: the whole work of the call, once its test is
// passed.

#![tactic(auto)]

ghost use Rattle.std.specs.Prelude.{◌≡◌, Ok};
ghost use Rattle.types.specs.Told.{came_of};
ghost use Rattle.rules.specs.Lent.{before, after, lent};
ghost use Rattle.rules_calls.specs.Calls.{Call};
ghost use Rattle.theory_memories.specs.Heaps.{Usable};
ghost use Rattle.theory.specs.Usable.{Worked};
ghost use Rattle.test_arguments.specs.Replies.{store_root_test};

use types::{Outcome, Ref};

// Stores v in root r, which has no owner. The passed test shows that v fits a cell. A store that freed nothing touched no figure of a
// section.
pub fn store_root(
    blocks: usize,
    width: usize,
    a: &mut [u8],
    b: &mut [u8],
    counts: &mut [u8],
    cells: &mut [Ref],
    roots: &mut [Ref],
    waiting: &mut [Ref],
    sections: &mut [Ref],
    d: &mut [u8],
    marks: &mut [u8],
    list: &mut [Ref],
    r: usize,
    v: usize,
) -> Outcome
    requires { Usable blocks width (lent a.old b.old counts.old cells.old roots.old waiting.old sections.old d.old marks.old list.old)
        × ((store_root_test blocks
        (lent a.old b.old counts.old cells.old roots.old waiting.old sections.old d.old marks.old list.old) r v).number ≡ 0) }
    ensures { Worked blocks width (Call.store_root r v)
        (before a.old b.old counts.old cells.old roots.old waiting.old sections.old d.old marks.old list.old) (came_of (Ok result))
        (after a.new b.new counts.new cells.new roots.new waiting.new sections.new d.new marks.new list.new) }
{
    let new = v as Ref;
    let old = roots[r];
    if old == new {
        return Outcome {
            value: 0,
            freed: 0, // nothing is let go
            stuck: false,
        };
    }
    let stuck = count_up::count_up(blocks, width, counts, new);
    roots[r] = new;
    let freed = step_release::let_go(
        blocks, width, a, b, counts, cells, waiting, sections, d, marks, list, 0, old, new,
    );
    section_figures::renew_after(blocks, a, sections, freed);
    Outcome {
        value: freed,
        freed,
        stuck,
    }
}
