// Recorded histories: the records of a piece of a file, run on a lent heap from where the run stands. The heap is checked once a piece;
// calls keep a heap undamaged, so no record tests it.

#![tactic(auto)]

ghost use Rattle.std.specs.Prelude.{◌≡◌};
ghost use Rattle.rules.specs.Lent.{before, after};
ghost use Rattle.types.specs.Told.{tested};
ghost use Rattle.history_runs.specs.Promised.{run_reply, refusal, Promised};

use history_figures::tally;
use history_figures::tally::Run;
use history_runs::Ran;
use map_objects::lists;
use types::{Ref, Refusal, Reply, replies};

mod run;

// A refusal.
fn refused(reply: Reply) -> Ran
    ensures { result ≡ refusal reply }
{
    Ran {
        reply,
        run: tally::new_run(),
    }
}

// Whether records can be run, which depends on the heap and on the run handed in alone: the check, whose refusals are 1, 2, 11 and 13, then
// 19 for a run out of range.
fn run_reply(
    blocks: usize,
    width: usize,
    a: &[u8],
    b: &[u8],
    counts: &[u8],
    cells: &[Ref],
    roots: &[Ref],
    waiting: &[Ref],
    sections: &[Ref],
    d: &[u8],
    marks: &[u8],
    list: &[Ref],
    run: Run,
) -> Result<(), Refusal>
    ensures { tested result ≡ run_reply blocks width
        (before a.now b.now counts.now cells.now roots.now waiting.now sections.now d.now marks.now list.now) run }
{
    public_read::test_heap(
        blocks, width, a, b, counts, cells, roots, waiting, sections, d, marks, list,
    )?;
    if !tally::in_range(run) {
        return Err(Refusal::BadRun);
    }
    Ok(())
}

// Runs the records of a piece of a history, from where the run stands, and answers where it stands then. Only the last piece may end inside
// a record.
pub fn run_records(
    blocks: usize,
    width: usize,
    a: &mut [u8],
    b: &mut [u8],
    counts: &mut [u8],
    cells: &mut [Ref],
    roots: &mut [Ref],
    waiting: &mut [Ref],
    sections: &mut [Ref],
    d: &mut [u8],
    marks: &mut [u8],
    list: &mut [Ref],
    run: Run,
    bytes: &[u8],
) -> Ran
    ensures { Promised blocks width bytes.now
        (before a.old b.old counts.old cells.old roots.old waiting.old sections.old d.old marks.old list.old) run result
        (after a.new b.new counts.new cells.new roots.new waiting.new sections.new d.new marks.new list.new) }
{
    if let Err(refusal) = run_reply(
        blocks, width, a, b, counts, cells, roots, waiting, sections, d, marks, list, run,
    ) {
        return refused(refusal.into());
    }
    lists::clear_all(waiting);
    let run = run::run_piece(
        blocks, width, a, b, counts, cells, roots, waiting, sections, d, marks, list, bytes, run,
    );
    Ran {
        reply: replies::acceptance(0),
        run,
    }
}
