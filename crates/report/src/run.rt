// The run over the input, piece by piece.
ghost use Rattle.bitmap.specs.Bit.{Bytes};
ghost use Rattle.rules.specs.Lent.{before, after};
ghost use Rattle.report.specs.Meaning.{Reported, piece_meaning};

use history_figures::tally;
use history_figures::tally::Run;
use history_records::RECORD;
use report_heap::{BLOCKS, CELLS, COUNT_BYTES, LIST, MAP_BYTES, ROOTS, SECTIONS, WIDTH};
use std::io::Read;
use types::Ref;

// The bytes of a full piece, of whole records: the heap is checked once a piece.
const PIECE: usize = 87381 * RECORD;

// What came of the input: the run at its end; a read that failed; a heap that was refused, which a formatted one never is.
#[derive(Clone, Copy)]
pub enum Outcome {
    Ran(Run),
    ReadFailed,
    HeapRefused,
}

// What came of a piece: a run that goes on, or an outcome.
#[derive(Clone, Copy)]
pub enum PieceOutcome {
    GoesOn(Run),
    Ends(Outcome),
}

// Runs the records of a piece. A piece that is not full is the last.
pub fn run_piece(
    run: Run,
    a: &mut [u8; MAP_BYTES],
    b: &mut [u8; MAP_BYTES],
    counts: &mut [u8; COUNT_BYTES],
    cells: &mut [Ref; CELLS],
    roots: &mut [Ref; ROOTS],
    waiting: &mut [Ref; BLOCKS],
    sections: &mut [Ref; SECTIONS],
    d: &mut [u8; MAP_BYTES],
    marks: &mut [u8; MAP_BYTES],
    list: &mut [Ref; LIST],
    bytes: &[u8],
) -> PieceOutcome
    ensures { piece_meaning bytes.now (before a.old b.old counts.old cells.old roots.old waiting.old sections.old d.old marks.old list.old) run result
        (after a.new b.new counts.new cells.new roots.new waiting.new sections.new d.new marks.new list.new)
        × Bytes bytes.now }
{
    let ran = history::run_records(
        BLOCKS, WIDTH, a, b, counts, cells, roots, waiting, sections, d, marks, list, run, bytes,
    );
    if ran.reply.number != 0 {
        return PieceOutcome::Ends(Outcome::HeapRefused);
    }
    let next = ran.run;
    if next.number != 0 {
        return PieceOutcome::Ends(Outcome::Ran(next));
    }
    if bytes.len() < PIECE {
        return PieceOutcome::Ends(Outcome::Ran(next));
    }
    PieceOutcome::GoesOn(next)
}

// Runs the pieces of an input, as standard input, on a new heap, until it ends or the run is stopped, which the limit of its records makes sure of.
pub fn run_input(input: &mut impl Read) -> Outcome
    ensures { Reported result }
{
    let mut a = [0u8; MAP_BYTES];
    let mut b = [0u8; MAP_BYTES];
    let mut counts = [0u8; COUNT_BYTES];
    let mut cells = [0 as Ref; CELLS];
    let mut roots = [0 as Ref; ROOTS];
    let mut waiting = [0 as Ref; BLOCKS];
    let mut sections = [0 as Ref; SECTIONS];
    let mut d = [0u8; MAP_BYTES];
    let mut marks = [0u8; MAP_BYTES];
    let mut list = [0 as Ref; LIST];
    report_heap::format(
        &mut a,
        &mut b,
        &mut counts,
        &mut cells,
        &mut roots,
        &mut waiting,
        &mut sections,
        &mut d,
        &mut marks,
        &mut list,
    );
    let mut run = tally::new_run();
    let mut buffer = [0u8; PIECE];
    loop {
        let Ok(n) = history_input::read_piece(input, &mut buffer) else {
            return Outcome::ReadFailed;
        };
        let came = run_piece(
            run,
            &mut a,
            &mut b,
            &mut counts,
            &mut cells,
            &mut roots,
            &mut waiting,
            &mut sections,
            &mut d,
            &mut marks,
            &mut list,
            &buffer[..n],
        );
        match came {
            PieceOutcome::GoesOn(further) => {
                run = further;
            }
            PieceOutcome::Ends(outcome) => {
                return outcome;
            }
        }
    }
}
