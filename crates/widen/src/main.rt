// Widens an old history, of eight-byte records: reads it from standard input and writes it in the form of today to standard output. It
// judges nothing: whatever the bytes are, whole records are widened, and a tail is copied.

#![tactic(auto)]

mod pieces;

use std::env::FillError;
use std::rt::Env;

// Whether the program was given an argument. Its own name is argument 0.
fn has_argument(rt: &impl Env) -> bool {
    !matches!(rt.arg(1, &mut [0u8; 1]), Err(FillError::NotPresent))
}

fn main(rt: HostRuntime) {
    // A history is not asked for by name: what is written would be another one.
    if has_argument(&rt) {
        pieces::complain(
            &rt,
            "widen: it takes no argument, and widens an old history from standard input to standard output: widen <OLD >NEW\n",
        );
        return;
    }
    pieces::widen_input(&rt, &mut rt.stdin());
}
