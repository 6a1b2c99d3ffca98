// A whole list of calls in one lent slice, run from a formatted heap: demand 3 as the contract of one function. The heap is formatted
// here, so it is undamaged and its list of sections true, and calls keep it so: no call of the list tests it.

#![tactic(auto)]

ghost use Rattle.rules.specs.Lent.{before, after};
ghost use Rattle.replay.specs.Replay.{Replayed};

use replay_words::tests;
use types::replies::acceptance;
use types::{Ref, Reply};

// Formats the heap and runs the calls: four words each, the replies three words each. The value is the number of calls. Refused lists, and
// their numbers, are those of `replay_reply`: nothing is written then.
pub fn replay(
    blocks: usize,
    width: usize,
    a: &mut [u8],
    b: &mut [u8],
    counts: &mut [u8],
    cells: &mut [Ref],
    roots: &mut [Ref],
    waiting: &mut [Ref],
    sections: &mut [Ref],
    d: &mut [u8],
    marks: &mut [u8],
    list: &mut [Ref],
    calls: &[u64],
    replies: &mut [u64],
) -> Reply
    ensures { Replayed blocks width
        (before a.old b.old counts.old cells.old roots.old waiting.old sections.old d.old marks.old list.old)
        calls.now replies.old result
        (after a.new b.new counts.new cells.new roots.new waiting.new sections.new d.new marks.new list.new)
        replies.new }
{
    let n = match tests::replay_reply(
        blocks,
        width,
        a.len(),
        b.len(),
        counts.len(),
        cells.len(),
        roots.len(),
        waiting.len(),
        sections.len(),
        d.len(),
        marks.len(),
        list.len(),
        calls,
        replies.len(),
    ) {
        Ok(n) => n,
        Err(refusal) => return refusal.into(), // nothing is written
    };
    work_format::format(
        blocks, width, a, b, counts, cells, roots, waiting, sections, d, marks, list,
    );
    replay_run::run_all(
        blocks, width, a, b, counts, cells, roots, waiting, sections, d, marks, list, calls,
        replies,
    );
    acceptance(n)
}
