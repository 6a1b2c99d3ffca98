// The replies as they are made: of what a test or a call answers, and acceptance with one value.
ghost use Rattle.std.specs.Prelude.{◌≡◌, Ok};
ghost use Rattle.types.specs.Told.{refused, replied, tested, came_of, reply_of};

use crate::refusals::Refusal;
use crate::{Outcome, Reply};

impl From<Refusal> for Reply {
    ghost from_gives = { λ refusal reply. reply ≡ refused refusal };

    fn from(refusal: Refusal) -> Reply {
        Reply {
            number: refusal.number(),
            value: refusal.value(),
            second: 0, // in every refusal
        }
    }
}

impl From<Result<usize, Refusal>> for Reply {
    ghost from_gives = { λ answer reply. reply ≡ replied answer };

    fn from(answer: Result<usize, Refusal>) -> Reply {
        match answer {
            Ok(value) => acceptance(value),
            Err(refusal) => refusal.into(),
        }
    }
}

impl From<Result<(), Refusal>> for Reply {
    ghost from_gives = { λ answer reply. reply ≡ tested answer };

    fn from(answer: Result<(), Refusal>) -> Reply {
        match answer {
            Ok(()) => acceptance(0),
            Err(refusal) => refusal.into(),
        }
    }
}

impl From<Outcome> for Reply {
    ghost from_gives = { λ outcome reply. reply ≡ reply_of (came_of (Ok outcome)) };

    fn from(outcome: Outcome) -> Reply {
        Reply {
            number: 0,
            value: outcome.value,
            second: outcome.stuck as usize,
        }
    }
}

impl From<Result<Outcome, Refusal>> for Reply {
    ghost from_gives = { λ answer reply. reply ≡ reply_of (came_of answer) };

    fn from(answer: Result<Outcome, Refusal>) -> Reply {
        match answer {
            Ok(outcome) => outcome.into(),
            Err(refusal) => refusal.into(),
        }
    }
}

// Acceptance with one value.
pub fn acceptance(value: usize) -> Reply
    ensures { result ≡ record { number = 0; value = value; second = 0 } }
{
    Reply {
        number: 0,
        value,
        second: 0,
    }
}
