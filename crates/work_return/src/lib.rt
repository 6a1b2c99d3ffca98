// The return of a set of roots (request U10) on a heap that is known to be undamaged, with a cleared waiting list and a true list of sections:
// its work, and its test with it. Bit r of `chosen` says whether root r is one of the set.

#![tactic(auto)]

ghost use Rattle.std.specs.Prelude.{Ok, ◌≡◌, ◌<◌, length};
ghost use Rattle.types.specs.Told.{came_of};
ghost use Rattle.rules.specs.Lent.{before, after, lent};
ghost use Rattle.rules_calls.specs.Calls.{Call};
ghost use Rattle.test_arguments.specs.Replies.{return_test};
ghost use Rattle.theory_memories.specs.Heaps.{Usable};
ghost use Rattle.theory.specs.Usable.{Worked};
ghost use Rattle.work_return.specs.Returns.{ClearedIfChosen};

use test_arguments::returning;
use types::{Outcome, Ref, Refusal};

// Clears root r where it is one of the set. The number of blocks freed.
fn clear_chosen(
    blocks: usize,
    width: usize,
    a: &mut [u8],
    b: &mut [u8],
    counts: &mut [u8],
    cells: &mut [Ref],
    roots: &mut [Ref],
    waiting: &mut [Ref],
    sections: &mut [Ref],
    d: &mut [u8],
    marks: &mut [u8],
    list: &mut [Ref],
    chosen: u64,
    r: usize,
) -> usize
    requires { Usable blocks width (lent a.old b.old counts.old cells.old roots.old waiting.old sections.old d.old marks.old list.old)
        × (r < length roots.old) }
    ensures { ClearedIfChosen blocks width
        (before a.old b.old counts.old cells.old roots.old waiting.old sections.old d.old marks.old list.old)
        chosen r
        (after a.new b.new counts.new cells.new roots.new waiting.new sections.new d.new marks.new list.new)
        result }
{
    if (chosen >> r) % 2 == 1 {
        let done = work_root::store_root(
            blocks, width, a, b, counts, cells, roots, waiting, sections, d, marks, list, r, 0,
        );
        done.freed
    } else {
        0
    }
}

// Clears the roots of the set, the lowest first, once the test is passed.
pub fn clear_roots(
    blocks: usize,
    width: usize,
    a: &mut [u8],
    b: &mut [u8],
    counts: &mut [u8],
    cells: &mut [Ref],
    roots: &mut [Ref],
    waiting: &mut [Ref],
    sections: &mut [Ref],
    d: &mut [u8],
    marks: &mut [u8],
    list: &mut [Ref],
    chosen: u64,
) -> Outcome
    requires { Usable blocks width (lent a.old b.old counts.old cells.old roots.old waiting.old sections.old d.old marks.old list.old)
        × ((return_test (length roots.old) chosen).number ≡ 0) }
    ensures { Worked blocks width (Call.return_roots chosen)
        (before a.old b.old counts.old cells.old roots.old waiting.old sections.old d.old marks.old list.old) (came_of (Ok result))
        (after a.new b.new counts.new cells.new roots.new waiting.new sections.new d.new marks.new list.new) }
{
    let mut freed = 0;
    for r in 0..roots.len() {
        let more = clear_chosen(
            blocks, width, a, b, counts, cells, roots, waiting, sections, d, marks, list, chosen, r,
        );
        freed += more;
    }
    Outcome {
        value: freed,
        freed,
        stuck: false,
    }
}

// The test, and the work where it passes.
pub fn return_roots(
    blocks: usize,
    width: usize,
    a: &mut [u8],
    b: &mut [u8],
    counts: &mut [u8],
    cells: &mut [Ref],
    roots: &mut [Ref],
    waiting: &mut [Ref],
    sections: &mut [Ref],
    d: &mut [u8],
    marks: &mut [u8],
    list: &mut [Ref],
    chosen: u64,
) -> Result<Outcome, Refusal>
    requires { Usable blocks width (lent a.old b.old counts.old cells.old roots.old waiting.old sections.old d.old marks.old list.old) }
    ensures { Worked blocks width (Call.return_roots chosen)
        (before a.old b.old counts.old cells.old roots.old waiting.old sections.old d.old marks.old list.old) (came_of result)
        (after a.new b.new counts.new cells.new roots.new waiting.new sections.new d.new marks.new list.new) }
{
    returning::return_test(roots.len(), chosen)?;
    Ok(clear_roots(
        blocks, width, a, b, counts, cells, roots, waiting, sections, d, marks, list, chosen,
    ))
}
