// The test of a return of a set of roots (request U10). Bit r of `chosen` says whether root r is one of the set.
ghost use Rattle.std.specs.Prelude.{◌≡◌, ◌≤◌};
ghost use Rattle.types.specs.Told.{tested};
ghost use Rattle.test_arguments.specs.Replies.{return_test};

use types::Refusal;

// The test of a return: a set with a bit at or past the number of roots is refused.
pub fn return_test(roots: usize, chosen: u64) -> Result<(), Refusal>
    requires { roots ≤ 64 }
    ensures { tested result ≡ return_test roots chosen }
{
    // All 64 bits name roots, and a shift by 64 would be none.
    if 64 <= roots {
        return Ok(());
    }
    if chosen >> roots != 0 {
        return Err(Refusal::BadRoot);
    }
    Ok(())
}
