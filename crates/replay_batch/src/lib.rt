// A list of calls made on a heap as it stands. The heap is checked once; calls keep it undamaged, so no call of the list tests it.

#![tactic(auto)]

ghost use Rattle.std.specs.Prelude.{◌≡◌};
ghost use Rattle.types.specs.Told.{replied};
ghost use Rattle.rules.specs.Lent.{before, after};
ghost use Rattle.replay_batch.specs.Batch.{batch_reply, Batch};

use map_objects::lists;
use replay_words::tests;
use types::replies::acceptance;
use types::{Ref, Refusal, Reply};

// The number of calls, or what refuses them, from the heap, the calls and the room for their replies: the test of the heap (1, 2, 11, 13),
// else that of a replay (10, 9, 18).
fn batch_reply(
    blocks: usize,
    width: usize,
    a: &[u8],
    b: &[u8],
    counts: &[u8],
    cells: &[Ref],
    roots: &[Ref],
    waiting: &[Ref],
    sections: &[Ref],
    d: &[u8],
    marks: &[u8],
    list: &[Ref],
    calls: &[u64],
    room: usize,
) -> Result<usize, Refusal>
    ensures { replied result ≡ batch_reply blocks width
        (before a.now b.now counts.now cells.now roots.now waiting.now sections.now d.now marks.now list.now) calls.now room }
{
    public_read::test_heap(
        blocks, width, a, b, counts, cells, roots, waiting, sections, d, marks, list,
    )?;
    tests::replay_reply(
        blocks,
        width,
        a.len(),
        b.len(),
        counts.len(),
        cells.len(),
        roots.len(),
        waiting.len(),
        sections.len(),
        d.len(),
        marks.len(),
        list.len(),
        calls,
        room,
    )
}

// Checks the heap, clears the waiting list and makes the calls: four words each, the replies three words each, as in a replay. The value is
// the number of calls.
pub fn make_calls(
    blocks: usize,
    width: usize,
    a: &mut [u8],
    b: &mut [u8],
    counts: &mut [u8],
    cells: &mut [Ref],
    roots: &mut [Ref],
    waiting: &mut [Ref],
    sections: &mut [Ref],
    d: &mut [u8],
    marks: &mut [u8],
    list: &mut [Ref],
    calls: &[u64],
    replies: &mut [u64],
) -> Reply
    ensures { Batch blocks width
        (before a.old b.old counts.old cells.old roots.old waiting.old sections.old d.old marks.old list.old)
        calls.now replies.old result
        (after a.new b.new counts.new cells.new roots.new waiting.new sections.new d.new marks.new list.new)
        replies.new }
{
    let n = match batch_reply(
        blocks,
        width,
        a,
        b,
        counts,
        cells,
        roots,
        waiting,
        sections,
        d,
        marks,
        list,
        calls,
        replies.len(),
    ) {
        Ok(n) => n,
        Err(refusal) => return refusal.into(), // nothing is written
    };
    lists::clear_all(waiting);
    replay_run::run_all(
        blocks, width, a, b, counts, cells, roots, waiting, sections, d, marks, list, calls,
        replies,
    );
    acceptance(n)
}
