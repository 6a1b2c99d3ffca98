// The loop over the calls of a list, on an undamaged heap with a cleared waiting list.

#![tactic(auto)]

ghost use Rattle.std.specs.Prelude.{◌≡◌, true, ◌*◌, ◌/◌, ◌≤◌, length};
ghost use Rattle.rules.specs.Lent.{before, after, lent};
ghost use Rattle.theory_memories.specs.Heaps.{Usable};
ghost use Rattle.replay_words.specs.Encoding.{are_calls};
ghost use Rattle.replay_run.specs.Run.{AsRun};

use replay_words::words;
use types::Ref;

// Makes every call, and writes every reply.
pub fn run_all(
    blocks: usize,
    width: usize,
    a: &mut [u8],
    b: &mut [u8],
    counts: &mut [u8],
    cells: &mut [Ref],
    roots: &mut [Ref],
    waiting: &mut [Ref],
    sections: &mut [Ref],
    d: &mut [u8],
    marks: &mut [u8],
    list: &mut [Ref],
    calls: &[u64],
    replies: &mut [u64],
)
    requires { Usable blocks width (lent a.old b.old counts.old cells.old roots.old waiting.old sections.old d.old marks.old list.old)
        × (are_calls calls.now (length calls.now / 4) ≡ true) × (3 * (length calls.now / 4) ≤ length replies.old) }
    ensures { AsRun blocks width
        (before a.old b.old counts.old cells.old roots.old waiting.old sections.old d.old marks.old list.old)
        calls.now replies.old
        (after a.new b.new counts.new cells.new roots.new waiting.new sections.new d.new marks.new list.new)
        replies.new }
{
    let n = calls.len() / 4;
    for i in 0..n {
        let call = words::call_at(calls, i);
        let reply = replay_call::step(
            blocks, width, a, b, counts, cells, roots, waiting, sections, d, marks, list,
            call.code, call.x, call.y, call.z,
        );
        words::put_reply(replies, i, reply);
    }
}
