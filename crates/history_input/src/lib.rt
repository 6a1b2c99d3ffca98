// An input, as standard input, in pieces. Every piece but the last is full, so that where a full one has whole records only the last may end inside a record.

#![tactic(auto)]

ghost use Rattle.std.specs.Prelude.{MatchResult};
ghost use Rattle.io.specs.Counts.{IsPrefixLen};

use std::io::Read;

// A read failed. The bytes that had come before stand at the start of the buffer.
#[derive(Clone, Copy)]
pub struct ReadFailed {
    pub length: usize,
}

// Reads until the buffer is full or the input ends: how many bytes came. A read gives what has come so far, which may be less.
pub fn read_piece(input: &mut impl Read, buffer: &mut [u8]) -> Result<usize, ReadFailed>
    ensures { MatchResult result (λ length. IsPrefixLen length buffer.new) (λ failed. IsPrefixLen failed.length buffer.new) }
{
    let mut length = 0;
    while length < buffer.len() {
        match input.read(&mut buffer[length..]) {
            Ok(0) => break,
            Ok(more) => length += more,
            Err(_) => return Err(ReadFailed { length }),
        }
    }
    Ok(length)
}
