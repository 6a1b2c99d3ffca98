// The entries of a list of calls, performed: for the program `calls`.

#![tactic(auto)]

use types::{MAX_BLOCKS, MAX_ROOTS};

mod outputs;
pub mod perform;

// The kinds of entries: calls, from 0 to LAST_CALL, those that have an output and the copy from REASON on; and, at the end of a byte's numbers, out of
// the way of calls to come, what is none.
pub const LAST_CALL: usize = 13;

// The call that writes a number.
pub const WRITE_NUMBER: usize = 10;

// The calls that write an output, and the largest length of each, which is enough for every heap: of a sentence in bytes
// (`SentenceBounded`), and of a shape in numbers, which are at most one, one for each root, and six for each block.
pub const REASON: usize = 240;

pub const SHAPE: usize = 241;

pub const MAX_SENTENCE: usize = 12 * MAX_BLOCKS + 8;

pub const MAX_SHAPE: usize = 1 + MAX_ROOTS + 6 * MAX_BLOCKS;

// The copy into a second heap, whose blocks, width and roots are its numbers.
pub const COPY: usize = 242;

pub const LOAD: usize = 253;

pub const LENGTH: usize = 254;

pub const NEW: usize = 255;

// What is left of an entry after which nothing follows; in a file this kind is unknown.
pub const END: usize = 256;

// An entry: how many of its bytes were read, its kind, and its numbers (of a call its arguments, of a heap its blocks, width and roots).
#[derive(Clone, Copy)]
pub struct Entry {
    pub bytes: usize,
    pub kind: usize,
    pub x: usize,
    pub y: usize,
    pub z: usize,
}
