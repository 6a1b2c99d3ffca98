// Public calls with a run of records and a replay between them, on the same buffers: all of them are one list of
// calls, and demand 3's claim of it is the contract.
ghost use Rattle.rules.specs.Lent.{before, after};
ghost use Rattle.public_example.specs.Mixed.{MixedCalls};

use history_figures::tally;
use types::{Ref, Reply};

// Formats the heap, allocates one block into root 0, runs the records of the bytes, replays the list of calls, and
// collects. The reply is format's; where it refuses, no other call is made.
pub fn mixed_calls(
    blocks: usize,
    width: usize,
    a: &mut [u8],
    b: &mut [u8],
    counts: &mut [u8],
    cells: &mut [Ref],
    roots: &mut [Ref],
    waiting: &mut [Ref],
    sections: &mut [Ref],
    d: &mut [u8],
    marks: &mut [u8],
    list: &mut [Ref],
    bytes: &[u8],
    calls: &[u64],
    replies: &mut [u64],
) -> Reply
    ensures { MixedCalls blocks width
        (before a.old b.old counts.old cells.old roots.old waiting.old sections.old d.old marks.old list.old)
        bytes.now calls.now replies.old result
        (after a.new b.new counts.new cells.new roots.new waiting.new sections.new d.new marks.new list.new)
        replies.new }
{
    let formatting = public_heap::format(
        blocks, width, a, b, counts, cells, roots, waiting, sections, d, marks, list,
    );
    let number = formatting.number;
    if number != 0 {
        return formatting;
    }
    public_heap::allocate(
        blocks, width, a, b, counts, cells, roots, waiting, sections, d, marks, list, 1, 0,
    );
    let run = tally::new_run();
    history::run_records(
        blocks, width, a, b, counts, cells, roots, waiting, sections, d, marks, list, run, bytes,
    );
    replay::replay(
        blocks, width, a, b, counts, cells, roots, waiting, sections, d, marks, list, calls,
        replies,
    );
    public_heap::collect(
        blocks, width, a, b, counts, cells, roots, waiting, sections, d, marks, list,
    );
    formatting
}
