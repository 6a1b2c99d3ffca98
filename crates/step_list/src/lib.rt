// The mark map and the second list of a collection in small steps (request U8): sets of blocks as bits, and
// as 1 + each block, rising.

#![tactic(auto)]

ghost use Rattle.std.specs.Prelude.{◌≡◌, true, not, ◌&&◌, ◌||◌, ℕ, ◌+◌, ◌*◌, ◌/◌, ◌<◌, ◌≤◌, length, get_or};
ghost use Rattle.rules.specs.Heap.{max_blocks};
ghost use Rattle.rules_steps.specs.Steps.{list_of};
ghost use Rattle.step_list.specs.Lists.{is_set, listed_in, relisted, Shows, Passed, NextBit, Written, Mixed, Listing};

use types::{MAX_BLOCKS, Ref};

// A byte from `from` on and up to `end` before which there are only 0s: eight bytes are looked at at once. A
// `while`, since it goes on from any byte, and stops where fewer than eight are left.
fn pass_zeros(map: &[u8], from: usize, end: usize) -> usize
    requires { (from ≤ end) × (end ≤ length map.now) × (end ≤ max_blocks) }
    ensures { Passed map.now (8 * from) (8 * end) (8 * result) }
{
    let mut k = from;
    while 8 <= end - k {
        if section_words::eight_bytes(map, k) != 0 {
            return k;
        }
        k += 8;
    }
    k
}

// The lowest 1 bit of the map from `from` on and below `end`, if any. Bytes that are 0 are passed over at
// once: a `while`, since its steps are bits and runs of bytes.
pub fn next_bit(map: &[u8], from: usize, end: usize) -> Option<usize>
    requires { (from ≤ end) × (end ≡ 8 * (end / 8)) × (end ≤ 8 * length map.now) × (end ≤ max_blocks) }
    ensures { NextBit map.now from end result }
{
    let mut i = from;
    while i < end {
        if map[i / 8] == 0 {
            i = pass_zeros(map, i / 8 + 1, end / 8) * 8;
        } else if bitmap::get_bit(map, i) == 1 {
            return Some(i);
        } else {
            i += 1;
        }
    }
    None
}

// A 1 for each block that the first n numbers of the list name, a 0 for the others: of a second list the
// blocks that stand on it, of the roots those that they name.
pub fn name_all(blocks: usize, list: &[Ref], n: usize, map: &mut [u8])
    requires { (n ≤ length list.now) × (blocks ≤ 8 * length map.old) }
    ensures { Shows blocks (listed_in n list.now) map.new }
{
    bitmap::fill_bytes(map, 0);
    for &v in &list[..n] {
        step_marks::mark_one(blocks, map, v);
    }
}

// 1 + each block of byte j whose bit is 1, rising, from place `at` of the list on. The place behind them.
fn write_byte(blocks: usize, map: &[u8], list: &mut [Ref], j: usize, at: usize) -> usize
    requires { (8 * (j + 1) ≤ blocks) × (blocks ≤ max_blocks) × (blocks ≤ 8 * length map.now) × Written blocks map.now (8 * j) at list.old }
    ensures { Written blocks map.now (8 * (j + 1)) result list.new }
{
    let mut place = at;
    // It steps over the 1s of the byte.
    let mut left = map[j];
    while left != 0 {
        list[place] = (8 * j + left.trailing_zeros() as usize + 1) as Ref;
        place += 1;
        left &= left - 1;
    }
    place
}

// The second list of an open collection, from the bits of the blocks that stand on it.
pub fn write_list(blocks: usize, map: &[u8], list: &mut [Ref])
    requires { (blocks ≡ 8 * (blocks / 8)) × (blocks ≤ max_blocks) × (blocks ≤ 8 * length map.now)
        × (length list.old ≡ blocks + 1) }
    ensures { list.new ≡ list_of blocks (is_set map.now) }
{
    map_objects::lists::clear_all(list);
    list[blocks] = 1;
    let mut place = 0;
    for j in 0..blocks / 8 {
        place = write_byte(blocks, map, list, j, place);
    }
}

// What bit i of the map of listed blocks has to be after a call that made the marks of the old ones.
fn mix_bit(blocks: usize, old: &[u8], marks: &[u8], map: &mut [u8], i: usize)
    requires { (i < 8 * length old.now) × (i < 8 * length marks.now) × (i < 8 * length map.old) }
    ensures { Mixed blocks i old.now marks.now map.old map.new }
{
    if bitmap::get_bit(marks, i) == 0 {
        bitmap::set_bit(map, i, 0);
    } else if bitmap::get_bit(old, i) == 0 {
        bitmap::set_bit(map, i, 1);
    }
}

// The map of the blocks that were listed becomes that of those that are listed now. A byte of the marks that
// did not change is passed over: a `while`, since its steps are bits and bytes.
fn mix(blocks: usize, old: &[u8], marks: &[u8], map: &mut [u8])
    requires { (blocks ≡ 8 * (blocks / 8)) × (blocks ≤ max_blocks) × (blocks ≤ 8 * length old.now) × (blocks ≤ 8 * length marks.now)
        × (blocks ≤ 8 * length map.old)
        × ((i : ℕ) → i < blocks → is_set map.old i ≡ true → is_set old.now i ≡ true) }
    ensures { Shows blocks (λ i. is_set marks.now i && (is_set map.old i || not (is_set old.now i)))
        map.new }
{
    let mut i = 0;
    while i < blocks {
        if old[i / 8] == marks[i / 8] {
            i = (i / 8 + 1) * 8;
        } else {
            mix_bit(blocks, old, marks, map, i);
            i += 1;
        }
    }
}

// The second list after a call that made the marks of the old ones, a copy of which was kept. Where no mark
// changed it is as it was.
// Not inlined: its map is on the stack only while it runs.
#[inline(never)]
pub fn relist(blocks: usize, old: &[u8], marks: &[u8], list: &mut [Ref])
    requires { (blocks ≡ 8 * (blocks / 8)) × (blocks ≤ max_blocks) × (blocks ≤ 8 * length old.now) × (blocks ≤ 8 * length marks.now)
        × (length list.old ≡ blocks + 1) × Listing blocks old.now list.old }
    ensures { list.new ≡ list_of blocks (relisted blocks old.now marks.now list.old) }
{
    if old[..blocks / 8] == marks[..blocks / 8] {
        return;
    }
    let mut map = [0u8; MAX_BLOCKS / 8];
    name_all(blocks, list, blocks, &mut map);
    mix(blocks, old, marks, &mut map);
    write_list(blocks, &map, list);
}

// The marks of a map copied into the first bytes of another.
pub fn copy_map(from: &[u8], to: &mut [u8])
    requires { length from.now ≤ length to.old }
    ensures { (j : ℕ) → j < length from.now → get_or to.new j 0 ≡ get_or from.now j 0 }
{
    to[..from.len()].copy_from_slice(from);
}
