// One record of a history as it is run: what came of its calls, and what that adds to the run. Numbers by value; no buffer is lent here.

#![tactic(auto)]

pub mod noting;
pub mod outcome;
