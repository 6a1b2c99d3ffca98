// What rules and code share: references, the bounds of a heap, the capacity of a count, and the reply of a call.

#![tactic(auto)]

ghost use Rattle.std.specs.Prelude.{◌≡◌, ◌-◌, ◌^◌, ◌≤◌, ◌<◌};

pub mod refusals;
pub mod replies;

pub use refusals::{Damage, Refusal};

// A cell or root: 0, or 1 + the first block of an object. Its width and the two bounds below are written here, and in the rules
// as `doublings` and `max_number`.
pub type Ref = u32;

// The largest heap, in blocks.
pub const MAX_BLOCKS: usize = 65536;

// The places of the short and of the middle working arrays: enough for heaps of 1,024 and of 8,192 blocks. Work that needs a place for each
// block takes the shortest of three arrays that has them, since it is cleared in every call.
pub const SMALL_ROOM: usize = MAX_BLOCKS / 64;

pub const MIDDLE_ROOM: usize = MAX_BLOCKS / 8;

// The largest number that a cell holds: all bits of a `Ref`.
pub const MAX_NUMBER: usize = 4294967295;

// The widest count, in bits.
pub const MAX_WIDTH: usize = 4;

// The most roots.
pub const MAX_ROOTS: usize = 64;

// The capacity of a count, `capacity` of the rules.
pub fn capacity_of(width: usize) -> u8
    requires { (1 ≤ width) × (width ≤ 4) }
    ensures { (result ≡ 2 ^ width - 1) × (1 ≤ result) × (result < 16) }
{
    (1u8 << width) - 1
}

// "A reply is a number and a value (two values for the look)." An allocation and the two stores have two as well: `second` is 1 where the
// call brought a count to the capacity (request U5), else 0. Of a call that takes steps it is the blocks freed (request U8). In every other
// reply it is 0. It is laid out as in C, so that the exported calls hand it on as it is.
#[repr(C)]
#[derive(Clone, Copy)]
pub struct Reply {
    pub number: usize,
    pub value: usize,
    pub second: usize,
}

// What came of an accepted call on an undamaged heap: the value of its reply, the blocks that it freed, and whether it brought a count to
// the capacity. Code that works answers this, and who asked makes the reply of it.
#[derive(Clone, Copy)]
pub struct Outcome {
    pub value: usize,
    pub freed: usize,
    pub stuck: bool,
}
