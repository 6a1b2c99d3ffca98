// The report of a recorded history: reads it from standard input, runs it on a new heap, and prints its line to standard output.

#![tactic(auto)]

mod output;
mod run;

use std::env::FillError;
use std::rt::Env;

// Whether the program was given an argument. Its own name is argument 0.
fn has_argument(rt: &impl Env) -> bool {
    !matches!(rt.arg(1, &mut [0u8; 1]), Err(FillError::NotPresent))
}

fn main(rt: HostRuntime) {
    // A history is not asked for by name: a line would be that of another one.
    if has_argument(&rt) {
        output::refuse_arguments(&rt);
        return;
    }
    let outcome = run::run_input(&mut rt.stdin());
    output::tell(&rt, outcome);
}
