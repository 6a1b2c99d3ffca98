// Runs of records for C, under the name of include/huwekapo.h. The run so far goes in and out by value.
ghost use Rattle.rules.specs.Lent.{before, after};
ghost use Rattle.history_runs.specs.Promised.{Promised};

use history_figures::tally::Run;
use history_runs::Ran;
use types::Ref;

#[unsafe(no_mangle)]
pub extern "C" fn huwekapo_run_records(
    blocks: usize,
    width: usize,
    a: &mut [u8],
    b: &mut [u8],
    counts: &mut [u8],
    cells: &mut [Ref],
    roots: &mut [Ref],
    waiting: &mut [Ref],
    sections: &mut [Ref],
    d: &mut [u8],
    marks: &mut [u8],
    list: &mut [Ref],
    run: Run,
    bytes: &[u8],
) -> Ran
    ensures { Promised blocks width bytes.now
        (before a.old b.old counts.old cells.old roots.old waiting.old sections.old d.old marks.old list.old) run result
        (after a.new b.new counts.new cells.new roots.new waiting.new sections.new d.new marks.new list.new) }
{
    history::run_records(
        blocks, width, a, b, counts, cells, roots, waiting, sections, d, marks, list, run, bytes,
    )
}
