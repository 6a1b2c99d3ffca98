// The run over the records of a piece, on an undamaged heap with a cleared waiting list.
ghost use Rattle.std.specs.Prelude.{◌≡◌, true, ◌+◌, ◌*◌, ◌/◌, ◌-◌, ◌≤◌, min, length};
ghost use Rattle.rules.specs.Lent.{before, after, lent};
ghost use Rattle.theory_memories.specs.Heaps.{Usable};
ghost use Rattle.history_records.specs.Records.{record_length, wide};
ghost use Rattle.history_figures.specs.Figures.{most_records, in_range};
ghost use Rattle.history_turns.specs.Steps.{Going};
ghost use Rattle.history_runs.specs.Runs.{ran_from, ended, ran};
ghost use Rattle.history_runs.specs.RunBy.{RunBy};

use history_figures::tally::{MAX_RECORDS, Run};
use history_records::RECORD;
use history_turns::noting::Running;
use types::Ref;

// Runs n records, from the start of the bytes, until one is refused.
fn run_whole(
    blocks: usize,
    width: usize,
    a: &mut [u8],
    b: &mut [u8],
    counts: &mut [u8],
    cells: &mut [Ref],
    roots: &mut [Ref],
    waiting: &mut [Ref],
    sections: &mut [Ref],
    d: &mut [u8],
    marks: &mut [u8],
    list: &mut [Ref],
    bytes: &[u8],
    n: usize,
    start: Running,
) -> Run
    requires { Usable blocks width (lent a.old b.old counts.old cells.old roots.old waiting.old sections.old d.old marks.old list.old)
        × Going blocks (lent a.old b.old counts.old cells.old roots.old waiting.old sections.old d.old marks.old list.old) n start
        × (record_length wide * n ≤ length bytes.now) }
    ensures { RunBy blocks width
        (ran_from wide n blocks width bytes.now 0
        (before a.old b.old counts.old cells.old roots.old waiting.old sections.old d.old marks.old list.old) start.run) result
        (after a.new b.new counts.new cells.new roots.new waiting.new sections.new d.new marks.new list.new) }
{
    let mut state = start;
    for i in 0..n {
        let f = history_records::fields_at(bytes, i);
        state = history_execution::step(
            blocks, width, a, b, counts, cells, roots, waiting, sections, d, marks, list, f, state,
        );
        if state.run.number != 0 {
            return state.run;
        }
    }
    state.run
}

// The whole records of so many bytes, but no more than a run may still take.
fn whole_records(length: usize, records: usize) -> usize
    requires { records ≤ most_records }
    ensures { result ≡ min (length / record_length wide) (most_records - records) }
{
    (length / RECORD).min(MAX_RECORDS - records)
}

// The run at the end of a piece of so many bytes with n whole records: stopped with 10 where the bytes go on behind them.
fn end_piece(run: Run, length: usize, n: usize) -> Run
    requires { record_length wide * n ≤ length }
    ensures { result ≡ ended wide length n run }
{
    if run.number == 0 && length != RECORD * n {
        Run { number: 10, ..run }
    } else {
        run
    }
}

// Runs the records of a piece, from where the run stands.
pub(crate) fn run_piece(
    blocks: usize,
    width: usize,
    a: &mut [u8],
    b: &mut [u8],
    counts: &mut [u8],
    cells: &mut [Ref],
    roots: &mut [Ref],
    waiting: &mut [Ref],
    sections: &mut [Ref],
    d: &mut [u8],
    marks: &mut [u8],
    list: &mut [Ref],
    bytes: &[u8],
    run: Run,
) -> Run
    requires { Usable blocks width (lent a.old b.old counts.old cells.old roots.old waiting.old sections.old d.old marks.old list.old)
        × (in_range run ≡ true) }
    ensures { RunBy blocks width (ran wide blocks width bytes.now
        (before a.old b.old counts.old cells.old roots.old waiting.old sections.old d.old marks.old list.old) run) result
        (after a.new b.new counts.new cells.new roots.new waiting.new sections.new d.new marks.new list.new) }
{
    if run.number != 0 {
        return run;
    }
    let n = whole_records(bytes.len(), run.records);
    let used = blocks - bitmap::count_zeros(a);
    let state = Running { run, used };
    let last = run_whole(
        blocks, width, a, b, counts, cells, roots, waiting, sections, d, marks, list, bytes, n,
        state,
    );
    end_piece(last, bytes.len(), n)
}
