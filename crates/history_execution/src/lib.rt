// One record of a history, on an undamaged heap with a cleared waiting list: the calls it asks for, and what they add to the run.

#![tactic(auto)]

ghost use Rattle.std.specs.Prelude.{◌≤◌};
ghost use Rattle.rules.specs.Heap.{max_number};
ghost use Rattle.rules.specs.Lent.{before, after, lent};
ghost use Rattle.theory_memories.specs.Heaps.{Usable};
ghost use Rattle.history_plans.specs.Asked.{asked};
ghost use Rattle.history_turns.specs.Turns.{turn_of};
ghost use Rattle.history_turns.specs.Steps.{Going, Stepped};

use history_records::Fields;
use history_turns::noting;
use history_turns::noting::Running;
use types::Ref;

mod acts;

// Runs one record.
pub fn step(
    blocks: usize,
    width: usize,
    a: &mut [u8],
    b: &mut [u8],
    counts: &mut [u8],
    cells: &mut [Ref],
    roots: &mut [Ref],
    waiting: &mut [Ref],
    sections: &mut [Ref],
    d: &mut [u8],
    marks: &mut [u8],
    list: &mut [Ref],
    f: Fields,
    state: Running,
) -> Running
    requires { Usable blocks width (lent a.old b.old counts.old cells.old roots.old waiting.old sections.old d.old marks.old list.old)
        × Going blocks (lent a.old b.old counts.old cells.old roots.old waiting.old sections.old d.old marks.old list.old) 1 state
        × (f.size ≤ max_number) }
    ensures { Stepped blocks
        (turn_of blocks width (before a.old b.old counts.old cells.old roots.old waiting.old sections.old d.old marks.old list.old)
        (asked blocks (before a.old b.old counts.old cells.old roots.old waiting.old sections.old d.old marks.old list.old) f))
        state result (after a.new b.new counts.new cells.new roots.new waiting.new sections.new d.new marks.new list.new) }
{
    let plan = history_plans::plan_of(blocks, b, cells, roots, d, f);
    let done = acts::act(
        blocks, width, a, b, counts, cells, roots, waiting, sections, d, marks, list, plan,
    );
    noting::noted(state, done)
}
