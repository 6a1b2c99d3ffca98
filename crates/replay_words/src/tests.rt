// What can be refused before anything is written.
ghost use Rattle.std.specs.Prelude.{◌≡◌, ◌*◌, ◌≤◌, length};
ghost use Rattle.types.specs.Told.{replied};
ghost use Rattle.rules.specs.Heap.{shape};
ghost use Rattle.replay_words.specs.Encoding.{is_call, are_calls};
ghost use Rattle.replay_words.specs.Refusals.{reply_on};

use types::{MAX_NUMBER, Refusal};

// Whether a code, with the third argument, is a call. All else is answered 9.
fn is_call(code: u64, z: u64) -> bool
    ensures { result ≡ is_call code z }
{
    if code == 10 {
        z <= MAX_NUMBER as u64
    } else {
        code <= 13
    }
}

// Whether each of the first n calls is a call.
fn are_calls(calls: &[u64], n: usize) -> bool
    requires { 4 * n ≤ length calls.now }
    ensures { result ≡ are_calls calls.now n }
{
    (0..n).all(|i| is_call(calls[4 * i], calls[4 * i + 3]))
}

// The number of calls of a replay, or what refuses it, from the lengths and the calls.
pub fn replay_reply(
    blocks: usize,
    width: usize,
    a: usize,
    b: usize,
    counts: usize,
    cells: usize,
    roots: usize,
    waiting: usize,
    sections: usize,
    d: usize,
    marks: usize,
    list: usize,
    calls: &[u64],
    room: usize,
) -> Result<usize, Refusal>
    ensures { replied result ≡ reply_on (shape blocks width a b counts cells roots waiting sections d marks list) calls.now room }
{
    if !check_shape::is_shaped(
        blocks, width, a, b, counts, cells, roots, waiting, sections, d, marks, list,
    ) {
        return Err(Refusal::Misshapen);
    }
    if calls.len() % 4 != 0 {
        return Err(Refusal::CutOff);
    }
    let n = calls.len() / 4;
    if !are_calls(calls, n) {
        return Err(Refusal::NoCall);
    }
    if room / 3 < n {
        return Err(Refusal::ShortReplies);
    }
    Ok(n)
}
