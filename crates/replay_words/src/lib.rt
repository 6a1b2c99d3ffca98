// A list of calls as 64-bit words, four words a call, and their replies, three words each: what such a list is refused with, a call read,
// a reply written.

#![tactic(auto)]

pub mod tests;
pub mod words;
