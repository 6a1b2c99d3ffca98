// What is printed: the line of a run to standard output, what went wrong to standard error.
ghost use Rattle.report.specs.Meaning.{Reported, ReportedRun, ReportLine};

use crate::run::Outcome;
use history_figures::tally::Run;
use history_line::MAX_LINE;

// A complaint that can't be made either is let go.
fn complain(rt: &impl Eprint, text: &str) {
    let _ = rt.eprint(text);
}

pub fn refuse_arguments(rt: &impl Eprint) {
    complain(
        rt,
        "report: it takes no argument, and reads a history from standard input: report <FILE\n",
    );
}

// Writes a text to standard output: nothing but the line of a history gets there.
fn print(rt: &(impl Print + Eprint), text: &[u8])
    requires { ReportLine text.now }
{
    if rt.write_all(text).is_err() {
        complain(rt, "report: a write to standard output failed\n");
    }
}

fn print_line(rt: &(impl Print + Eprint), run: Run)
    requires { ReportedRun run }
{
    let mut out = [0u8; MAX_LINE];
    let n = history_line::write_line(run, &mut out);
    print(rt, &out[..n]);
}

// What came of the input.
pub(crate) fn tell(rt: &(impl Print + Eprint), outcome: Outcome)
    requires { Reported outcome }
{
    match outcome {
        Outcome::Ran(run) => print_line(rt, run),
        Outcome::ReadFailed => complain(rt, "report: a read of standard input failed\n"),
        Outcome::HeapRefused => complain(rt, "report: the heap was refused\n"),
    }
}
