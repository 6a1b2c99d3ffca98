// Damage kinds 4 and 5 in one: all references are tallied once, in a local array, since no lent buffer may be written; then each block's
// count is held to its tally. A tally where no object starts tells a reference that names no object, so no reference is looked up by
// itself. The array is the shortest of three that has a place for each block, since it is cleared in every call.

#![tactic(auto)]

ghost use Rattle.std.specs.Prelude.{◌≡◌, [], ◌∷◌, ◌+◌, ◌*◌, ◌/◌, ◌^◌, ◌≤◌, ◌<◌, length, get_or};
ghost use Rattle.bitmap.specs.Bit.{bit_of};
ghost use Rattle.planes.specs.Plane.{count_at};
ghost use Rattle.rules.specs.Tools.{some_below, first_number};
ghost use Rattle.rules.specs.Heap.{max_blocks};
ghost use Rattle.types.specs.Told.{damage_kind};
ghost use Rattle.check_references.specs.Tally.{Room};
ghost use Rattle.check_counts.specs.Lanes.{pack};
ghost use Rattle.check_counts.specs.Late.{Cleared, stray_in, off_in, stray_tally, off_tally, Countable, kind_of};

use map_objects::objects;
use types::{Damage, MAX_BLOCKS, MIDDLE_ROOM, Ref, SMALL_ROOM};

// A 1 in each byte of a word; bit n in byte n; and all bits but the highest of each byte.
const ONES: u64 = 0x0101_0101_0101_0101;

const DIAGONAL: u64 = 0x8040_2010_0804_0201;

const LOW_BITS: u64 = 0x7f7f_7f7f_7f7f_7f7f;

// The bits of a byte as the bytes of a word. Of eight copies of the byte each keeps one bit, which is then carried to the top of its own.
fn lanes(x: u8) -> u64
    ensures { (result ≡ pack (λ s. bit_of x s) 8) × (result ≤ 72340172838076673) }
{
    let kept = (x as u64 * ONES) & DIAGONAL;
    ((kept + LOW_BITS) >> 7) & ONES
}

// Every bit 1 in the bytes of a word that are the bits of a byte.
fn mask(x: u8) -> u64
    ensures { result ≡ pack (λ s. bit_of x s * 255) 8 }
{
    lanes(x) * 255
}

// The tallies of the eight blocks of byte k as the bytes of a word.
fn tallies(at: &[u8], k: usize) -> u64
    requires { (8 * (k + 1) ≤ length at.now) × (8 * k ≤ max_blocks) }
    ensures { result ≡ pack (λ s. get_or at.now (8 * k + s) 0) 8 }
{
    section_words::eight_bytes(at, 8 * k)
}

// Byte k of map p of the counts; 0 where there are fewer maps.
fn plane_byte(counts: &[u8], bytes: usize, width: usize, p: usize, k: usize) -> u8
    requires { (length counts.now ≡ width * bytes) × (k < bytes) × (8 * bytes ≤ max_blocks) × (p < 4) }
    ensures { (p < width → result ≡ get_or counts.now (p * bytes + k) 0) × (width ≤ p → result ≡ 0) }
{
    if p < width { counts[p * bytes + k] } else { 0 }
}

// The counts of the eight blocks of byte k as the bytes of a word. Written out: a loop over the maps takes up to
// twice as long.
fn count_lanes(counts: &[u8], bytes: usize, width: usize, k: usize) -> u64
    requires { (length counts.now ≡ width * bytes) × (k < bytes) × (8 * bytes ≤ max_blocks) × (1 ≤ width) × (width ≤ 4) }
    ensures { result ≡ pack (λ s. count_at bytes width counts.now (8 * k + s)) 8 }
{
    let ones = lanes(plane_byte(counts, bytes, width, 0, k));
    let twos = lanes(plane_byte(counts, bytes, width, 1, k));
    let fours = lanes(plane_byte(counts, bytes, width, 2, k));
    let eights = lanes(plane_byte(counts, bytes, width, 3, k));
    ones + twos * 2 + fours * 4 + eights * 8
}

// Whether one of the eight blocks of byte k is named where no object starts.
fn is_stray(first: u8, at: &[u8], k: usize) -> bool
    requires { (8 * (k + 1) ≤ length at.now) × (8 * k ≤ max_blocks) × Room at.now }
    ensures { result ≡ some_below (stray_in first at.now k) 8 }
{
    tallies(at, k) & mask(!first) != 0
}

// Whether one of the eight blocks of byte k has a count that is damage: where an object starts and where a count is not 0 must be the same,
// and a count below capacity must be the tally's.
fn is_off(first: u8, counts: &[u8], bytes: usize, width: usize, k: usize, at: &[u8]) -> bool
    requires { (length counts.now ≡ width * bytes) × (k < bytes) × (8 * bytes ≤ max_blocks) × (1 ≤ width) × (width ≤ 4)
        × (8 * bytes ≤ length at.now) × Room at.now }
    ensures { result ≡ some_below (off_in first bytes width counts.now at.now k) 8 }
{
    if planes::some_byte(counts, bytes, width, k) != first {
        true
    } else if first == 0 {
        false
    } else {
        let kept = mask(first & !planes::full_byte(counts, bytes, width, k));
        tallies(at, k) & kept != count_lanes(counts, bytes, width, k) & kept
    }
}

// The kind that the tally tells: 4 where a block is named and no object starts, else 5 where a count is damage.
fn late_kind(
    blocks: usize,
    width: usize,
    a: &[u8],
    b: &[u8],
    counts: &[u8],
    at: &[u8],
) -> Option<Damage>
    requires { (blocks ≤ max_blocks) × (blocks ≡ 8 * (blocks / 8)) × (blocks ≤ 8 * length a.now) × (blocks ≤ 8 * length b.now)
        × (length counts.now ≡ width * (blocks / 8)) × (1 ≤ width) × (width ≤ 4) × (blocks ≤ length at.now)
        × Room at.now }
    ensures { damage_kind result ≡ first_number
        ((4, some_below (stray_tally blocks a.now b.now at.now) blocks)
        ∷ (5, some_below (off_tally blocks width a.now b.now counts.now at.now) blocks) ∷ []) }
{
    let bytes = blocks / 8;
    let mut off = false;
    for k in 0..bytes {
        let first = objects::first_byte(a, b, k);
        if is_stray(first, at, k) {
            return Some(Damage::DanglingReference);
        }
        off |= is_off(first, counts, bytes, width, k, at);
    }
    if off { Some(Damage::WrongCount) } else { None }
}

// Kinds 4 and 5, tallied in `at`.
fn kind_in(
    blocks: usize,
    width: usize,
    a: &[u8],
    b: &[u8],
    counts: &[u8],
    cells: &[Ref],
    roots: &[Ref],
    d: &[u8],
    at: &mut [u8],
) -> Option<Damage>
    requires { Countable blocks width a.now b.now counts.now cells.now roots.now d.now × Cleared blocks at.old }
    ensures { damage_kind result ≡ kind_of blocks width a.now b.now counts.now cells.now roots.now
        d.now }
{
    if check_references::tally_cells(blocks, a, b, cells, d, at)
        || check_references::tally_roots(blocks, roots, at)
    {
        Some(Damage::DanglingReference)
    } else {
        late_kind(blocks, width, a, b, counts, at)
    }
}

// .. in an array of so many places. Not inlined: the array is on the stack only while this runs, so that a small
// heap does not take the stack of the largest.
#[inline(never)]
fn kind_in_array<const PLACES: usize>(
    blocks: usize,
    width: usize,
    a: &[u8],
    b: &[u8],
    counts: &[u8],
    cells: &[Ref],
    roots: &[Ref],
    d: &[u8],
) -> Option<Damage>
    requires { Countable blocks width a.now b.now counts.now cells.now roots.now d.now × (blocks ≤ PLACES)
        × (PLACES ≤ max_blocks) }
    ensures { damage_kind result ≡ kind_of blocks width a.now b.now counts.now cells.now roots.now
        d.now }
{
    let mut at = [0u8; PLACES];
    kind_in(blocks, width, a, b, counts, cells, roots, d, &mut at)
}

// The first of kinds 4 and 5 that applies, if there is one.
pub fn reference_kind(
    blocks: usize,
    width: usize,
    a: &[u8],
    b: &[u8],
    counts: &[u8],
    cells: &[Ref],
    roots: &[Ref],
    d: &[u8],
) -> Option<Damage>
    requires { Countable blocks width a.now b.now counts.now cells.now roots.now d.now }
    ensures { damage_kind result ≡ kind_of blocks width a.now b.now counts.now cells.now roots.now
        d.now }
{
    if blocks <= SMALL_ROOM {
        kind_in_array::<SMALL_ROOM>(blocks, width, a, b, counts, cells, roots, d)
    } else if blocks <= MIDDLE_ROOM {
        kind_in_array::<MIDDLE_ROOM>(blocks, width, a, b, counts, cells, roots, d)
    } else {
        kind_in_array::<MAX_BLOCKS>(blocks, width, a, b, counts, cells, roots, d)
    }
}
