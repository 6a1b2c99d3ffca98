// The printed line of a run of records.

#![tactic(auto)]

ghost use Rattle.std.specs.Prelude.{◌≡◌, ◌++◌, ◌+◌, ◌≤◌, length, drop};
ghost use Rattle.text.specs.Text.{Put};
ghost use Rattle.history_line.specs.Line.{item, figures_line, refusal_line, line, longest_line};

use history_figures::tally::{Run, Tally};

// The longest line: six numbers of 20 digits, each with a byte behind it.
pub const MAX_LINE: usize = 126;

// Writes a number, and what stands behind it, at place `at`. The place behind both.
fn put_item(out: &mut [u8], at: usize, n: u64, behind: &[u8]) -> usize
    requires { at + (20 + length behind.now) ≤ length out.old }
    ensures { Put out.old at (item n behind.now) out.new result
        × (result ≤ at + (20 + length behind.now)) }
{
    let to = text::put_decimal(out, at, n);
    text::put_text(out, to, behind)
}

// Writes the six figures.
fn put_figures(out: &mut [u8], t: Tally) -> usize
    requires { longest_line ≤ length out.old }
    ensures { Put out.old 0 (figures_line t) out.new result × (result ≤ longest_line) }
{
    let to = put_item(out, 0, t.allocations, b" ");
    let to = put_item(out, to, t.blocks, b" ");
    let to = put_item(out, to, t.largest, b" ");
    let to = put_item(out, to, t.collections, b" ");
    let to = put_item(out, to, t.peak, b" ");
    put_item(out, to, t.stuck, b"\n")
}

// Writes the line of a run that was stopped.
fn put_refusal(out: &mut [u8], number: usize, records: usize) -> usize
    requires { longest_line ≤ length out.old }
    ensures { Put out.old 0 (refusal_line number records) out.new result × (result ≤ longest_line) }
{
    let to = text::put_text(out, 0, b"refused ");
    let to = put_item(out, to, number as u64, b" at record ");
    put_item(out, to, records as u64, b"\n")
}

// Writes the line of a run to the start of `out`. Its length.
pub fn write_line(run: Run, out: &mut [u8; MAX_LINE]) -> usize
    ensures { (result ≡ length (line run)) × (out.new ≡ line run ++ drop result out.old) × (result ≤ longest_line) }
{
    if run.number == 0 {
        put_figures(out, run.tally)
    } else {
        put_refusal(out, run.number, run.records)
    }
}
