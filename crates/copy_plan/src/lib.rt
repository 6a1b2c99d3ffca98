// Where the copies of request U14 go, found before the second heap is written: the objects of the first heap in the order of their
// numbers, each in the lowest free chunk of a map that begins with nothing used. Blocks only become used here, so no chunk that was passed
// over is free later: the search for chunks of a size goes on where it last found one, and looks at no block of the map more than twice for
// one size.

#![tactic(auto)]

ghost use Rattle.std.specs.Prelude.{◌≡◌, ◌+◌, ◌*◌, ◌/◌, ◌≤◌, length, replicate, true};
ghost use Rattle.rules.specs.Heap.{is_blocks};
ghost use Rattle.copy_plan.specs.Laying.{Sought, LaidOne};
ghost use Rattle.copy_plan.specs.Plan.{sizes_in, Numbering, Planned};

use map_objects::objects::object_size;
use search_chunk::lowest_chunk;
use search_size::chunk_size;
use types::{MAX_BLOCKS, Ref};

// How many powers of two are the size of a chunk: those from 1 to the largest heap.
const POWERS: usize = 17;

// The first block of the lowest free chunk for an object of n blocks, whose first n blocks become used. For each power of two `from` has
// a block before which no chunk of that size is free.
fn lay_one(blocks: usize, map: &mut [u8], from: &mut [usize; POWERS], n: usize) -> Option<usize>
    requires { Sought blocks map.old from.old }
    ensures { LaidOne blocks n map.old map.new from.new result }
{
    if blocks < n {
        return None;
    }
    let size = chunk_size(n);
    let k = size.trailing_zeros() as usize;
    let at = lowest_chunk(map, from[k], blocks, size).at?;
    bitmap::fill_bits(map, at, n, 1);
    from[k] = at - at % 8;
    Some(at)
}

// Whether each of the `met` objects finds a chunk at its turn. For those that do, 1 + the new first block is written over the object's number.
fn lay_each(
    blocks: usize,
    b: &[u8],
    order: &[Ref],
    numbers: &mut [Ref],
    met: usize,
    blocks2: usize,
    map: &mut [u8],
) -> bool
    requires { Numbering blocks order.now numbers.old met × (blocks ≤ 8 * length b.now)
        × (is_blocks blocks2 ≡ true) × (map.old ≡ replicate (blocks2 / 8) 0) }
    ensures { Planned blocks2 (sizes_in blocks b.now order.now) met blocks numbers.old numbers.new result }
{
    let mut from = [0usize; POWERS];
    for &reference in &order[..met] {
        let at = reference as usize - 1;
        let n = object_size(blocks, b, at);
        let Some(place) = lay_one(blocks2, map, &mut from, n) else {
            return false;
        };
        numbers[at] = (place + 1) as Ref;
    }
    true
}

// The same, in a heap with nothing in it.
// Not inlined: its map is on the stack only while it runs.
#[inline(never)]
pub fn plan(
    blocks: usize,
    b: &[u8],
    order: &[Ref],
    numbers: &mut [Ref],
    met: usize,
    blocks2: usize,
) -> bool
    requires { Numbering blocks order.now numbers.old met × (blocks ≤ 8 * length b.now) × (is_blocks blocks2 ≡ true) }
    ensures { Planned blocks2 (sizes_in blocks b.now order.now) met blocks numbers.old numbers.new result }
{
    let mut map = [0u8; MAX_BLOCKS / 8];
    let bytes = blocks2 / 8;
    lay_each(blocks, b, order, numbers, met, blocks2, &mut map[..bytes])
}
