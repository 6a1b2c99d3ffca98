// What a record adds to the run: its figures, which come and go by value, and the blocks in use.
ghost use Rattle.std.specs.Prelude.{◌≡◌, ◌+◌, ◌<◌, ◌^◌};
ghost use Rattle.history_figures.specs.Figures.{moment_in};
ghost use Rattle.history_turns.specs.Outcomes.{with_collection, with_allocation, CanNote, noted_by};

use crate::outcome::Done;
use history_figures::tally::{Run, Tally};

// A run under way: where it stands, and the blocks in use now.
#[derive(Clone, Copy)]
pub struct Running {
    pub run: Run,
    pub used: usize,
}

// The figures with a collection more, where one was made.
fn with_collection(t: Tally, done: Done) -> Tally
    requires { t.collections + 1 < 2 ^ 64 }
    ensures { result ≡ with_collection done t }
{
    if done.collected { t.collected() } else { t }
}

// The figures with an allocation more, where one was accepted.
fn with_allocation(t: Tally, done: Done) -> Tally
    requires { (t.allocations + 1 < 2 ^ 64) × (t.blocks + done.allocated < 2 ^ 64) }
    ensures { result ≡ with_allocation done t }
{
    if done.allocated == 0 {
        t
    } else {
        t.allocated(done.allocated as u64)
    }
}

// The figures with an object more that became stuck, where one did.
fn with_moment(t: Tally, done: Done) -> Tally
    requires { t.stuck + 1 < 2 ^ 64 }
    ensures { result ≡ moment_in done.stuck t }
{
    if done.stuck { t.became_stuck() } else { t }
}

// The run with what came of a record noted.
pub fn noted(state: Running, done: Done) -> Running
    requires { CanNote done state }
    ensures { result ≡ noted_by done state }
{
    let t = with_collection(state.run.tally, done);
    let t = with_allocation(t, done);
    let t = with_moment(t, done);
    let used = state.used + done.allocated - done.freed;
    let run = if done.number != 0 {
        Run {
            number: done.number,
            tally: t,
            ..state.run
        }
    } else {
        Run {
            number: 0,
            records: state.run.records + 1,
            tally: t.used(used as u64),
        }
    };
    Running { run, used }
}
