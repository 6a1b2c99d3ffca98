// The tally of all references, in one pass over cells and roots: a place for each block, in a lent array. A byte for each is enough: a
// tally stops at 255, and a count below capacity is less. On the way those parts of damage kind 4 are told that need no look at what is
// named: a cell of a free block that is not 0, and a cell or root beyond the heap. Whether each names a first block is told by the tally.

#![tactic(auto)]

ghost use Rattle.std.specs.Prelude.{◌≡◌, false, not, ◌||◌, ℕ, ◌+◌, ◌*◌, ◌/◌, ◌≤◌, ◌<◌, min, eqb, ltb, length, get_or};
ghost use Rattle.bitmap.specs.Bit.{bit_of};
ghost use Rattle.rules.specs.Heap.{max_blocks, in_data, ref_at};
ghost use Rattle.map_objects.specs.Walk.{data_before};
ghost use Rattle.check_references.specs.Wild.{wild, wild_cell, wild_root, read_in, wild_in, FilledCells};
ghost use Rattle.check_references.specs.Tally.{Room, Answered};

use map_objects::{numbers, objects};
use types::Ref;

// How many cells are looked at together: those of eight blocks.
const STRETCH: usize = 32;

// Whether a cell is not 0. All are looked at, so that the loop has no way out.
fn has_filled(cells: &[Ref]) -> bool
    ensures { result ≡ false → (j : ℕ) → j < length cells.now → get_or cells.now j 0 ≡ 0 }
{
    cells.iter().fold(0, |any, v| any | v) != 0
}

// Which of the 32 cells of the eight blocks of byte k are not 0, as the bits of a word. Most stretches of cells are all 0, and are
// passed over at once.
fn filled_cells(cells: &[Ref], k: usize) -> u32
    requires { (32 * (k + 1) ≤ length cells.now) × (length cells.now ≤ 4 * max_blocks) }
    ensures { FilledCells cells.now k result }
{
    let stretch = &cells[STRETCH * k..STRETCH * (k + 1)];
    let mut filled: u32 = 0;
    if has_filled(stretch) {
        for (j, v) in stretch.iter().enumerate() {
            if *v != 0 {
                filled |= 1 << j;
            }
        }
    }
    filled
}

// The blocks of data among the eight of byte k, as the bits of a byte, in a walk from byte 0 upwards: `before` says it of the block before
// them. Bytes that lie outside of data, and those that lie all in one object, are told at once.
fn data_byte(blocks: usize, a: &[u8], b: &[u8], d: &[u8], k: usize, before: bool) -> u8
    requires { (blocks ≤ 8 * length a.now) × (blocks ≤ 8 * length b.now) × (blocks ≤ 8 * length d.now) × (blocks ≤ max_blocks)
        × (8 * (k + 1) ≤ blocks) × (before ≡ data_before blocks a.now b.now d.now (8 * k)) }
    ensures { (s : ℕ) → s < 8
        → in_data blocks a.now b.now d.now (8 * k + s) ≡ not (eqb (bit_of result s) 0) }
{
    if d[k] == 0 {
        if !before {
            return 0;
        }
        if a[k] == 255 && objects::first_byte(a, b, k) == 0 {
            return 255;
        }
    }
    let mut in_data = before;
    let mut made: u8 = 0;
    for s in 0..8 {
        in_data = numbers::is_in_data(blocks, a, b, d, 8 * k + s, in_data);
        if in_data {
            made |= 1 << s;
        }
    }
    made
}

// What cell j of the eight blocks of byte k is read as: 0 in the blocks of data, which are the bits of `made`.
fn read_cell(cells: &[Ref], k: usize, made: u8, j: usize) -> usize
    requires { (32 * (k + 1) ≤ length cells.now) × (length cells.now ≤ 4 * max_blocks) × (j < 32) }
    ensures { result ≡ read_in made cells.now k j }
{
    if (made >> (j / 4)) % 2 != 0 {
        0
    } else {
        cells[STRETCH * k + j] as usize
    }
}

// Tallies v, to 255 at most, where it is not wild; whether it is: not 0, and in a free block or beyond the heap.
fn tally_one(blocks: usize, free: bool, v: usize, at: &mut [u8]) -> bool
    requires { (blocks ≤ length at.old) × Room at.old }
    ensures { Answered (λ j. wild blocks free v) (λ j. v) 1 at.old at.new result }
{
    if v == 0 {
        return false;
    }
    if free || blocks < v {
        return true;
    }
    at[v - 1] = at[v - 1].saturating_add(1);
    false
}

// Tallies those of the 32 cells of byte k that are the bits of `these`; the others are 0.
fn tally_among(
    blocks: usize,
    used: u8,
    made: u8,
    cells: &[Ref],
    k: usize,
    these: u32,
    at: &mut [u8],
) -> bool
    requires { (32 * (k + 1) ≤ length cells.now) × (length cells.now ≤ 4 * max_blocks) × (blocks ≤ length at.old)
        × FilledCells cells.now k these × Room at.old }
    ensures { Answered (wild_in blocks used made cells.now k) (read_in made cells.now k) 32 at.old
        at.new result }
{
    let mut left = these;
    while left != 0 {
        let j = left.trailing_zeros() as usize;
        let free = (used >> (j / 4)) % 2 == 0;
        if tally_one(blocks, free, read_cell(cells, k, made, j), at) {
            return true;
        }
        left &= left - 1;
    }
    false
}

// Tallies the 32 cells of byte k. Where all blocks are of data they are not read.
fn tally_byte(blocks: usize, used: u8, made: u8, cells: &[Ref], k: usize, at: &mut [u8]) -> bool
    requires { (32 * (k + 1) ≤ length cells.now) × (length cells.now ≤ 4 * max_blocks) × (blocks ≤ length at.old)
        × Room at.old }
    ensures { Answered (wild_in blocks used made cells.now k) (read_in made cells.now k) 32 at.old
        at.new result }
{
    made != 255 && tally_among(blocks, used, made, cells, k, filled_cells(cells, k), at)
}

// Tallies what the cells name, eight blocks at a time; whether one of them is wild. Those of data name nothing (request U6).
pub fn tally_cells(
    blocks: usize,
    a: &[u8],
    b: &[u8],
    cells: &[Ref],
    d: &[u8],
    at: &mut [u8],
) -> bool
    requires { (blocks ≤ 8 * length a.now) × (blocks ≤ 8 * length b.now) × (length cells.now ≡ 4 * blocks)
        × (blocks ≤ 8 * length d.now) × (blocks ≤ max_blocks) × (blocks ≡ 8 * (blocks / 8)) × (blocks ≤ length at.old)
        × Room at.old }
    ensures { Answered (wild_cell blocks a.now b.now d.now cells.now)
        (ref_at blocks a.now b.now d.now cells.now) (4 * blocks) at.old
        at.new result }
{
    let mut before = false;
    for k in 0..blocks / 8 {
        let made = data_byte(blocks, a, b, d, k, before);
        if tally_byte(blocks, a[k], made, cells, k, at) {
            return true;
        }
        before = 127 < made;
    }
    false
}

// Tallies what the roots name; whether one of them is wild.
pub fn tally_roots(blocks: usize, roots: &[Ref], at: &mut [u8]) -> bool
    requires { (length roots.now ≤ 64) × (blocks ≤ length at.old) × Room at.old }
    ensures { Answered (wild_root blocks roots.now) (λ i. get_or roots.now i 0) (length roots.now)
        at.old at.new result }
{
    for v in roots {
        if tally_one(blocks, false, *v as usize, at) {
            return true;
        }
    }
    false
}
