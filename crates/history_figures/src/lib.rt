// The figures of a run of records.

#![tactic(auto)]

pub mod tally;
