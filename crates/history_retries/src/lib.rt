// An allocation of a record, on an undamaged heap with a cleared waiting list: its try, and where no chunk is free a collection and a
// second one.

#![tactic(auto)]

ghost use Rattle.rules.specs.Lent.{before, after, lent};
ghost use Rattle.rules_calls.specs.Calls.{allocate_as};
ghost use Rattle.theory_memories.specs.Heaps.{Usable};
ghost use Rattle.history_plans.specs.Asked.{makes};
ghost use Rattle.history_turns.specs.Turns.{turn_of};
ghost use Rattle.history_turns.specs.Steps.{Acted};

use history_turns::outcome;
use history_turns::outcome::Done;
use types::Ref;

// Allocates n blocks into root r, as data or as an ordinary object; where no chunk is free, collects and tries once more. The collection is
// refused while one in small steps is open (request U8), and then it is not counted.
pub fn allocate(
    blocks: usize,
    width: usize,
    a: &mut [u8],
    b: &mut [u8],
    counts: &mut [u8],
    cells: &mut [Ref],
    roots: &mut [Ref],
    waiting: &mut [Ref],
    sections: &mut [Ref],
    d: &mut [u8],
    marks: &mut [u8],
    list: &mut [Ref],
    as_data: bool,
    n: usize,
    r: usize,
) -> Done
    requires { Usable blocks width (lent a.old b.old counts.old cells.old roots.old waiting.old sections.old d.old marks.old list.old) }
    ensures { Acted blocks (before a.old b.old counts.old cells.old roots.old waiting.old sections.old d.old marks.old list.old)
        (turn_of blocks width
        (before a.old b.old counts.old cells.old roots.old waiting.old sections.old d.old marks.old list.old) (makes (allocate_as as_data n r))) result
        (after a.new b.new counts.new cells.new roots.new waiting.new sections.new d.new marks.new list.new) }
{
    let first = work_tested::allocate(
        blocks, width, a, b, counts, cells, roots, waiting, sections, d, marks, list, as_data, n, r,
    );
    if !outcome::found_no_chunk(first) {
        return outcome::done_after(first, n, false, 0);
    }
    let forced = work_tested::collect(
        blocks, width, a, b, counts, cells, roots, waiting, sections, d, marks, list,
    );
    let second = work_tested::allocate(
        blocks, width, a, b, counts, cells, roots, waiting, sections, d, marks, list, as_data, n, r,
    );
    outcome::done_after_collection(forced, second, n)
}
