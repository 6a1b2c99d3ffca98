// The words of a call and of a reply, in their lists.
ghost use Rattle.std.specs.Prelude.{◌≡◌, ◌+◌, ◌*◌, ◌<◌, length};
ghost use Rattle.replay_words.specs.Words.{words_at, with_reply};

use types::Reply;

// The four words of a call.
#[derive(Clone, Copy)]
pub struct Words {
    pub code: u64,
    pub x: u64,
    pub y: u64,
    pub z: u64,
}

// The words of call number i.
pub fn call_at(calls: &[u64], i: usize) -> Words
    requires { 4 * i + 3 < length calls.now }
    ensures { result ≡ words_at calls.now i }
{
    let at = 4 * i;
    Words {
        code: calls[at],
        x: calls[at + 1],
        y: calls[at + 2],
        z: calls[at + 3],
    }
}

// Writes the reply of call number i.
pub fn put_reply(replies: &mut [u64], i: usize, reply: Reply)
    requires { 3 * i + 2 < length replies.old }
    ensures { replies.new ≡ with_reply replies.old i reply }
{
    let to = 3 * i;
    replies[to] = reply.number as u64;
    replies[to + 1] = reply.value as u64;
    replies[to + 2] = reply.second as u64;
}
