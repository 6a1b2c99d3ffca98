// The allocation on an undamaged heap with a cleared waiting list, which it leaves cleared: the whole work of the call, at the place that its
// search found.

#![tactic(auto)]

ghost use Rattle.std.specs.Prelude.{◌≡◌, Ok, length};
ghost use Rattle.types.specs.Told.{came_of};
ghost use Rattle.rules.specs.Lent.{before, after, lent};
ghost use Rattle.rules_calls.specs.Calls.{allocate_as, reply};
ghost use Rattle.theory_memories.specs.Heaps.{Usable};
ghost use Rattle.theory.specs.Usable.{Worked};
ghost use Rattle.test_allocation.specs.Replies.{allocate_reply};

use types::{Outcome, Ref};

// Makes the object of n blocks at block `at`, which the search found, as data or as an ordinary one (request U6), and stores its reference in
// root r.
pub fn allocate(
    blocks: usize,
    width: usize,
    a: &mut [u8],
    b: &mut [u8],
    counts: &mut [u8],
    cells: &mut [Ref],
    roots: &mut [Ref],
    waiting: &mut [Ref],
    sections: &mut [Ref],
    d: &mut [u8],
    marks: &mut [u8],
    list: &mut [Ref],
    as_data: bool,
    n: usize,
    r: usize,
    at: usize,
) -> Outcome
    requires { Usable blocks width (lent a.old b.old counts.old cells.old roots.old waiting.old sections.old d.old marks.old list.old)
        × (allocate_reply blocks a.old (length roots.old) n r ≡ reply 0 at 0) }
    ensures { Worked blocks width (allocate_as as_data n r)
        (before a.old b.old counts.old cells.old roots.old waiting.old sections.old d.old marks.old list.old) (came_of (Ok result))
        (after a.new b.new counts.new cells.new roots.new waiting.new sections.new d.new marks.new list.new) }
{
    let stuck = types::capacity_of(width) == 1;
    let new = (at + 1) as Ref;
    work_place::place(
        blocks, width, a, b, counts, cells, sections, d, marks, list, at, n, as_data,
    );
    let old = roots[r];
    roots[r] = new;
    let freed = step_release::let_go(
        blocks, width, a, b, counts, cells, waiting, sections, d, marks, list, 0, old, new,
    );
    section_figures::renew(blocks, a, sections);
    Outcome {
        value: at,
        freed,
        stuck,
    }
}
