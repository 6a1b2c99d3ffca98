// What came of a record's calls, as numbers.
ghost use Rattle.std.specs.Prelude.{◌≡◌, ◌↔◌, IsTrue, eqb, false, ◌+◌, ◌<◌, ◌^◌};
ghost use Rattle.types.specs.Told.{came_of};
ghost use Rattle.history_turns.specs.Outcomes.{done, done_after, done_by};

use types::{Outcome, Refusal};

// What came of a record's calls: the number that stops the run or 0, as the run is printed, the blocks allocated, whether a collection was made,
// the blocks freed, whether an object became stuck.
#[derive(Clone, Copy)]
pub struct Done {
    pub number: usize,
    pub allocated: usize,
    pub collected: bool,
    pub freed: usize,
    pub stuck: bool,
}

// Whether an allocation found no free chunk.
pub fn found_no_chunk(answer: Result<Outcome, Refusal>) -> bool
    ensures { IsTrue result ↔ ((came_of answer).number ≡ 5) }
{
    matches!(answer, Err(Refusal::NoChunk))
}

// What came of a full collection.
pub fn done_by_collection(answer: Result<Outcome, Refusal>) -> Done
    ensures { result ≡ done (came_of answer).number 0 (eqb (came_of answer).number 0) (came_of answer).freed false }
{
    match answer {
        Ok(outcome) => Done {
            number: 0,
            allocated: 0,
            collected: true,
            freed: outcome.freed,
            stuck: false,
        },
        Err(refusal) => Done {
            number: refusal.number(),
            allocated: 0,
            collected: false,
            freed: 0,
            stuck: false,
        },
    }
}

// What came of a call that is neither an allocation nor a collection.
impl From<Result<Outcome, Refusal>> for Done {
    ghost from_gives = { λ answer done. done ≡ done_by (came_of answer) };

    fn from(answer: Result<Outcome, Refusal>) -> Done {
        match answer {
            Ok(outcome) => Done {
                number: 0,
                allocated: 0,
                collected: false,
                freed: outcome.freed,
                stuck: outcome.stuck,
            },
            Err(refusal) => Done {
                number: refusal.number(),
                allocated: 0,
                collected: false,
                freed: 0,
                stuck: false,
            },
        }
    }
}

// What came of an allocation of n blocks: of its last try, and of a collection before that, if one was made, which freed so many blocks.
pub fn done_after(last: Result<Outcome, Refusal>, n: usize, collected: bool, freed: usize) -> Done
    requires { freed + (came_of last).freed < 2 ^ 64 }
    ensures { result ≡ done_after (came_of last) n collected freed }
{
    match last {
        Ok(outcome) => Done {
            number: 0,
            allocated: n,
            collected,
            freed: freed + outcome.freed,
            stuck: outcome.stuck,
        },
        Err(refusal) => Done {
            number: refusal.number(),
            allocated: 0,
            collected,
            freed,
            stuck: false,
        },
    }
}

// What came of an allocation of n blocks whose last try came behind a forced collection.
pub fn done_after_collection(
    forced: Result<Outcome, Refusal>,
    last: Result<Outcome, Refusal>,
    n: usize,
) -> Done
    requires { (came_of forced).freed + (came_of last).freed < 2 ^ 64 }
    ensures { result ≡ done_after (came_of last) n (eqb (came_of forced).number 0) (came_of forced).freed }
{
    match forced {
        Ok(outcome) => done_after(last, n, true, outcome.freed),
        Err(_) => done_after(last, n, false, 0),
    }
}
