// What the maps say of a block, and lists of references cleared.

#![tactic(auto)]

pub mod lists;
pub mod names;
pub mod numbers;
pub mod objects;
