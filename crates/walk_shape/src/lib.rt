// The call of request U13: the heap as a list of numbers, from the arrays of the walk. These are the shortest of three that have a place for
// each block, since they are cleared in every call.

#![tactic(auto)]

ghost use Rattle.std.specs.Prelude.{◌≡◌, false, List, map, ℕ, ◌+◌, ◌-◌, ◌*◌, ◌≤◌, ◌<◌, length, get_or};
ghost use Rattle.rules.specs.Heap.{max_blocks, size_from, is_data};
ghost use Rattle.rules.specs.Lent.{before, after, lent};
ghost use Rattle.rules_calls.specs.Promise.{ShapePromise};
ghost use Rattle.text.specs.Text.{Put};
ghost use Rattle.theory_memories.specs.Heaps.{Undamaged};
ghost use Rattle.walk_objects.specs.Walking.{walked_heap, Walkable};
ghost use Rattle.walk_shape.specs.Listing.{number_of, Known, described_in, shape_up_to, Ordered, Listed, Shaped};

use types::{MAX_BLOCKS, MIDDLE_ROOM, Ref, Refusal, Reply, SMALL_ROOM, replies};

// The number of what v names, or 0.
#[tactic(auto, unfolding(crate::specs::Listing::number_of))]
fn number_of(numbers: &[Ref], v: Ref) -> u32
    requires { Known numbers.now v }
    ensures { result ≡ number_of numbers.now v }
{
    if v == 0 { 0 } else { numbers[v as usize - 1] }
}

// By an index: `copy_from_slice` calls memmove, and where the loader binds that at the first call a walk takes more stack than allowed (.ci/stack.c).
fn put_cells(refs: &[Ref], out: &mut [u32])
    requires { length out.old ≡ length refs.now }
    ensures { out.new ≡ refs.now }
{
    for (i, &v) in refs.iter().enumerate() {
        out[i] = v;
    }
}

// Writes the numbers of what the references name.
fn put_numbers(numbers: &[Ref], refs: &[Ref], out: &mut [u32])
    requires { (length out.old ≡ length refs.now) × ((i : ℕ) → i < length refs.now → Known numbers.now (get_or refs.now i 0)) }
    ensures { out.new ≡ map (number_of numbers.now) refs.now }
{
    // By an index: of what is written through `out.iter_mut().zip(refs)` a proof knows nothing.
    for (i, &v) in refs.iter().enumerate() {
        out[i] = number_of(numbers, v);
    }
}

// Writes the object at block `at` to place `to`: size, D bit and cells. The place behind it: `out` goes with a
// place, as in `text`, whose `Put` says what is written.
fn write_object(
    blocks: usize,
    b: &[u8],
    d: &[u8],
    cells: &[Ref],
    numbers: &[Ref],
    at: usize,
    out: &mut [u32],
    to: usize,
) -> usize
    requires { (to + length (described_in blocks b.now d.now cells.now numbers.now at) ≤ length out.old) × (at < blocks) × (blocks ≤ max_blocks)
        × (blocks ≤ 8 * length b.now) × (blocks ≤ 8 * length d.now) × (length cells.now ≡ 4 * blocks)
        × (is_data d.now at ≡ false → (i : ℕ) → i < 4 * size_from (blocks - at) b.now at → Known numbers.now (get_or cells.now (4 * at + i) 0)) }
    ensures { Put out.old to (described_in blocks b.now d.now cells.now numbers.now at) out.new result }
{
    let size = map_objects::objects::object_size(blocks, b, at);
    let bit = bitmap::get_bit(d, at);
    out[to] = size as u32;
    out[to + 1] = bit as u32;
    let own = &cells[4 * at..4 * at + 4 * size];
    let end = to + 2 + 4 * size;
    let place = &mut out[to + 2..end];
    if bit == 1 {
        put_cells(own, place);
    } else {
        put_numbers(numbers, own, place);
    }
    end
}

// How many numbers the list has. It has as many whatever D bits, cells and objects' numbers are.
fn shape_length(blocks: usize, b: &[u8], roots: &[Ref], order: &[Ref]) -> usize
    requires { Ordered blocks b.now order.now × (length roots.now ≤ 64) }
    ensures { (d cells numbers : List ℕ) → result ≡ length (shape_up_to blocks b.now d cells roots.now order.now numbers (length order.now)) }
{
    let mut n = 1 + roots.len();
    for &reference in order {
        n += 2 + 4 * map_objects::objects::object_size(blocks, b, reference as usize - 1);
    }
    n
}

// Writes the list. How many numbers it has.
fn write_shape(
    blocks: usize,
    b: &[u8],
    d: &[u8],
    cells: &[Ref],
    roots: &[Ref],
    order: &[Ref],
    numbers: &[Ref],
    out: &mut [u32],
) -> usize
    requires { Listed blocks b.now d.now cells.now roots.now order.now numbers.now
        × (length (shape_up_to blocks b.now d.now cells.now roots.now order.now numbers.now (length order.now)) ≤ length out.old) }
    ensures { Put out.old 0
        (shape_up_to blocks b.now d.now cells.now roots.now order.now numbers.now (length order.now))
        out.new result }
{
    out[0] = roots.len() as u32;
    let mut to = 1 + roots.len();
    put_numbers(numbers, roots, &mut out[1..to]);
    for &reference in order {
        let at = reference as usize - 1;
        to = write_object(blocks, b, d, cells, numbers, at, out, to);
    }
    to
}

// Writes the heap's shape into `out`, by a walk in arrays of so many places. How many numbers it has; None, and
// nothing is written, where it doesn't fit.
// Not inlined: its arrays are on the stack only while it runs, so a small heap does not take the stack of the
// largest.
#[inline(never)]
fn shape_in_arrays<const PLACES: usize>(
    blocks: usize,
    a: &[u8],
    b: &[u8],
    d: &[u8],
    cells: &[Ref],
    roots: &[Ref],
    out: &mut [u32],
) -> Option<usize>
    requires { Walkable blocks a.now b.now d.now cells.now roots.now × (blocks ≤ PLACES) × (PLACES ≤ max_blocks) }
    ensures { Shaped blocks (walked_heap a.now b.now d.now cells.now roots.now) out.old
        out.new result }
{
    let mut order = [0 as Ref; PLACES];
    let mut numbers = [0 as Ref; PLACES];
    let mut owners = [0 as Ref; PLACES];
    let mut vias = [0 as Ref; PLACES];
    let met = walk_objects::trace_all(
        blocks,
        a,
        b,
        d,
        cells,
        roots,
        &mut order,
        &mut numbers,
        &mut owners,
        &mut vias,
    );
    let order = &order[..met];
    if out.len() < shape_length(blocks, b, roots, order) {
        return None;
    }
    Some(write_shape(blocks, b, d, cells, roots, order, &numbers, out))
}

// .. in the shortest of three that have a place for each block.
fn shape_in(
    blocks: usize,
    a: &[u8],
    b: &[u8],
    d: &[u8],
    cells: &[Ref],
    roots: &[Ref],
    out: &mut [u32],
) -> Option<usize>
    requires { Walkable blocks a.now b.now d.now cells.now roots.now }
    ensures { Shaped blocks (walked_heap a.now b.now d.now cells.now roots.now) out.old
        out.new result }
{
    if blocks <= SMALL_ROOM {
        shape_in_arrays::<SMALL_ROOM>(blocks, a, b, d, cells, roots, out)
    } else if blocks <= MIDDLE_ROOM {
        shape_in_arrays::<MIDDLE_ROOM>(blocks, a, b, d, cells, roots, out)
    } else {
        shape_in_arrays::<MAX_BLOCKS>(blocks, a, b, d, cells, roots, out)
    }
}

// The heap's shape as a list of numbers, written into `out`.
pub fn shape(
    blocks: usize,
    width: usize,
    a: &[u8],
    b: &[u8],
    counts: &[u8],
    cells: &[Ref],
    roots: &[Ref],
    waiting: &[Ref],
    sections: &[Ref],
    d: &[u8],
    marks: &[u8],
    list: &[Ref],
    out: &mut [u32],
) -> Reply
    requires { Undamaged blocks width (lent a.now b.now counts.now cells.now roots.now waiting.now sections.now d.now marks.now list.now) }
    ensures { ShapePromise blocks width
        (before a.now b.now counts.now cells.now roots.now waiting.now sections.now d.now marks.now list.now) out.old result
        (after a.now b.now counts.now cells.now roots.now waiting.now sections.now d.now marks.now list.now) out.new }
{
    match shape_in(blocks, a, b, d, cells, roots, out) {
        Some(length) => replies::acceptance(length),
        None => Refusal::ShortShape.into(),
    }
}
