// The tests of the calls that collect: whether a collection is open (request U8). The last place of the second list says it.
ghost use Rattle.std.specs.Prelude.{◌≡◌, ◌<◌, length};
ghost use Rattle.types.specs.Told.{tested};
ghost use Rattle.test_arguments.specs.Replies.{shut_test, open_test};

use types::{Ref, Refusal};

// The test of a full collection, and of an opening: none may be open.
pub fn shut_test(blocks: usize, list: &[Ref]) -> Result<(), Refusal>
    requires { blocks < length list.now }
    ensures { tested result ≡ shut_test blocks list.now }
{
    if list[blocks] == 1 {
        return Err(Refusal::OutOfTurn);
    }
    Ok(())
}

// The test of steps: one has to be open. It stands beside the other, since each is a line, and a flag for both would be read twice.
pub fn open_test(blocks: usize, list: &[Ref]) -> Result<(), Refusal>
    requires { blocks < length list.now }
    ensures { tested result ≡ open_test blocks list.now }
{
    if list[blocks] != 1 {
        return Err(Refusal::OutOfTurn);
    }
    Ok(())
}
