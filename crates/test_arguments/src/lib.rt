// What a call answers of its own arguments, on a heap that is known to be undamaged: its tests, and its whole reply where nothing is written.
// Nothing here writes. The tests of an allocation are the crate test_allocation.

#![tactic(auto)]

pub mod cells;
pub mod collecting;
pub mod looking;
pub mod numbers;
pub mod returning;
pub mod storing;
