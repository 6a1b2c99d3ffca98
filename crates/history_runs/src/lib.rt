// What a run of records answers. The definition of a run, its promise and all that is stated of runs stand in specs/; none of it needs a lent
// buffer, so it stands below the code that lends them.

#![tactic(auto)]

use history_figures::tally::Run;
use types::Reply;

// The reply of a run of records, and where the run stands. Laid out as in C.
#[repr(C)]
#[derive(Clone, Copy)]
pub struct Ran {
    pub reply: Reply,
    pub run: Run,
}
