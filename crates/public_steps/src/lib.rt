// The public calls of a collection in small steps (request U8): the opening and the steps. Each passes its gate first, which has all its
// tests on shared slices, and only then writes, so that a refusal can't write.

#![tactic(auto)]

ghost use Rattle.rules.specs.Lent.{before, after};
ghost use Rattle.rules_calls.specs.Calls.{Call};
ghost use Rattle.rules_calls.specs.Promise.{Promise};

use map_objects::lists;
use types::{Ref, Reply};

// Opens a collection: what the roots name is marked and listed. Nothing but marks and list is written: nothing is freed, so that the waiting
// list keeps its content too.
pub fn open_collection(
    blocks: usize,
    width: usize,
    a: &[u8],
    b: &[u8],
    counts: &[u8],
    cells: &[Ref],
    roots: &[Ref],
    waiting: &[Ref],
    sections: &[Ref],
    d: &[u8],
    marks: &mut [u8],
    list: &mut [Ref],
) -> Reply
    ensures { Promise blocks width Call.open_collection
        (before a.now b.now counts.now cells.now roots.now waiting.now sections.now d.now marks.old list.old) result
        (after a.now b.now counts.now cells.now roots.now waiting.now sections.now d.now marks.new list.new) }
{
    if let Err(refusal) = test_calls::none_open(
        blocks, width, a, b, counts, cells, roots, waiting, sections, d, marks, list,
    ) {
        return refusal.into(); // nothing is opened
    }
    work_open::open_collection(blocks, roots, marks, list)
}

// Takes at most `budget` steps of the open collection, and closes it where that leaves the list empty. The value is the number of steps taken,
// and the second value the number of blocks freed.
pub fn step_collection(
    blocks: usize,
    width: usize,
    a: &mut [u8],
    b: &mut [u8],
    counts: &mut [u8],
    cells: &mut [Ref],
    roots: &[Ref],
    waiting: &mut [Ref],
    sections: &mut [Ref],
    d: &mut [u8],
    marks: &mut [u8],
    list: &mut [Ref],
    budget: usize,
) -> Reply
    ensures { Promise blocks width (Call.take_steps budget)
        (before a.old b.old counts.old cells.old roots.now waiting.old sections.old d.old marks.old list.old) result
        (after a.new b.new counts.new cells.new roots.now waiting.new sections.new d.new marks.new list.new) }
{
    if let Err(refusal) = test_calls::one_open(
        blocks, width, a, b, counts, cells, roots, waiting, sections, d, marks, list,
    ) {
        return refusal.into(); // no step is taken
    }
    lists::clear_all(waiting);
    work_step::take_steps(
        blocks, width, a, b, counts, cells, roots, waiting, sections, d, marks, list, budget,
    )
}
