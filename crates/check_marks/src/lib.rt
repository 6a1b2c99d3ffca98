// Number 13 of request U8: whether the mark map and the second list are as they have to be. All lists are
// only read.

#![tactic(auto)]

ghost use Rattle.std.specs.Prelude.{◌≡◌, not, ◌&&◌, List, ℕ, ◌+◌, ◌*◌, ◌/◌, ◌<◌, ◌≤◌, ◌-◌, eqb, leb, length, get_or};
ghost use Rattle.rules.specs.Tools.{some_below};
ghost use Rattle.rules.specs.Heap.{max_blocks, lent_memory};
ghost use Rattle.rules_steps.specs.Steps.{is_untidy};
ghost use Rattle.theory_memories.specs.Heaps.{Intact};
ghost use Rattle.step_list.specs.Lists.{is_set, listed_in, Shows};
ghost use Rattle.check_marks.specs.Tidy.{root_missed_in, Read, missed_at, missed_of, missed_apart};

use map_objects::objects;
use types::{MAX_BLOCKS, Ref};

// Whether one of the numbers is not 0. All are looked at, so that the loop has no way out.
fn has_number(list: &[Ref]) -> bool
    ensures { result ≡ some_below (λ k. not (eqb (get_or list.now k 0) 0)) (length list.now) }
{
    list.iter().fold(0, |any, v| any | v) != 0
}

// The list read, up to its first 0, into a map that has no 1 yet. Whether it is strictly rising, then 0, and names blocks alone.
fn read_list(blocks: usize, list: &[Ref], map: &mut [u8]) -> bool
    requires { (length list.now ≡ blocks + 1) × (blocks ≤ 8 * length map.old) × Shows blocks (listed_in 0 list.now) map.old }
    ensures { Read blocks list.now map.new result }
{
    let mut before: Ref = 0;
    for k in 0..blocks {
        let v = list[k];
        if v == 0 {
            return !has_number(&list[k..blocks]);
        }
        if v <= before || blocks < v as usize {
            return false;
        }
        step_marks::set_mark(map, v as usize - 1);
        before = v;
    }
    true
}

// Whether a block of the map is not marked. Eight blocks at a time.
fn has_unmarked(blocks: usize, marks: &[u8], map: &[u8]) -> bool
    requires { (blocks ≡ 8 * (blocks / 8)) × (blocks ≤ 8 * length marks.now) × (blocks ≤ 8 * length map.now) }
    ensures { result ≡ some_below (λ i. is_set map.now i && not (is_set marks.now i)) blocks }
{
    let bytes = blocks / 8;
    let mut found: u8 = 0;
    for (x, y) in map[..bytes].iter().zip(&marks[..bytes]) {
        found |= x & !y;
    }
    found != 0
}

// What a root holds names an unmarked object. (No bit past the end of the map is 1: what names none is missed, unlike in a cell.)
fn is_missed_root(blocks: usize, marks: &[u8], v: Ref) -> bool
    requires { blocks ≡ 8 * length marks.now }
    ensures { result ≡ (not (eqb v 0) && not (is_set marks.now (v - 1))) }
{
    v != 0 && (blocks < v as usize || bitmap::get_bit(marks, v as usize - 1) != 1)
}

fn has_missed_root(blocks: usize, roots: &[Ref], marks: &[u8]) -> bool
    requires { blocks ≡ 8 * length marks.now }
    ensures { result ≡ some_below (root_missed_in roots.now marks.now) (length roots.now) }
{
    roots.iter().any(|v| is_missed_root(blocks, marks, *v))
}

// What a cell holds names an unmarked block.
fn is_missed(blocks: usize, marks: &[u8], v: Ref) -> bool
    requires { blocks ≤ 8 * length marks.now }
    ensures { result ≡ (not (eqb v 0) && (leb v blocks && not (is_set marks.now (v - 1)))) }
{
    v != 0 && v as usize <= blocks && bitmap::get_bit(marks, v as usize - 1) != 1
}

// The object at block x names an unmarked one. Its kind is looked at once.
fn misses_at(blocks: usize, b: &[u8], d: &[u8], cells: &[Ref], marks: &[u8], x: usize) -> bool
    requires { (blocks ≤ 8 * length b.now) × (blocks ≤ 8 * length d.now) × (length cells.now ≡ 4 * blocks) × (blocks ≤ max_blocks)
        × (blocks ≤ 8 * length marks.now) × (x < blocks) }
    ensures { result ≡ missed_at blocks b.now d.now cells.now marks.now x }
{
    let n = objects::object_size(blocks, b, x);
    let named = objects::naming_cells(d, x, n);
    cells[4 * x..4 * x + named]
        .iter()
        .any(|v| is_missed(blocks, marks, *v))
}

// One of the objects that start at the blocks of byte k which are the bits of `these` names an unmarked one.
fn misses_of(
    blocks: usize,
    b: &[u8],
    d: &[u8],
    cells: &[Ref],
    marks: &[u8],
    k: usize,
    these: u8,
) -> bool
    requires { (blocks ≤ 8 * length b.now) × (blocks ≤ 8 * length d.now) × (length cells.now ≡ 4 * blocks) × (blocks ≤ max_blocks)
        × (blocks ≤ 8 * length marks.now) × (8 * (k + 1) ≤ blocks) }
    ensures { result ≡ some_below (missed_of these k blocks b.now d.now cells.now marks.now) 8 }
{
    let mut left = these;
    while left != 0 {
        let x = 8 * k + left.trailing_zeros() as usize;
        if misses_at(blocks, b, d, cells, marks, x) {
            return true;
        }
        left &= left - 1;
    }
    false
}

// A marked object that is not in the map names an unmarked one; each mark stands on a first block.
fn has_missed_cell(
    blocks: usize,
    b: &[u8],
    d: &[u8],
    cells: &[Ref],
    marks: &[u8],
    map: &[u8],
) -> bool
    requires { (blocks ≡ 8 * (blocks / 8)) × (blocks ≤ max_blocks) × (blocks ≤ 8 * length b.now) × (blocks ≤ 8 * length d.now)
        × (length cells.now ≡ 4 * blocks) × (blocks ≤ 8 * length marks.now) × (blocks ≤ 8 * length map.now) }
    ensures { result ≡ some_below
        (missed_apart blocks b.now d.now cells.now marks.now map.now) blocks }
{
    (0..blocks / 8).any(|k| misses_of(blocks, b, d, cells, marks, k, marks[k] & !map[k]))
}

// Number 13, on a heap that 1 and 2 don't refuse. No test reads counts, waiting list or sections: the answer
// is the same whatever they hold. Where none is open the mark map and the list are looked over once.
// Not inlined: its map is on the stack only while it runs.
#[inline(never)]
pub fn is_untidy(
    blocks: usize,
    a: &[u8],
    b: &[u8],
    d: &[u8],
    cells: &[Ref],
    roots: &[Ref],
    marks: &[u8],
    list: &[Ref],
) -> bool
    requires { (width : ℕ) × (counts : List ℕ) × (waiting : List ℕ) × (sections : List ℕ)
        × Intact blocks width
        (lent_memory a.now b.now counts cells.now roots.now waiting sections d.now marks.now list.now) }
    ensures { (counts waiting sections : List ℕ)
        → result ≡ is_untidy blocks
        (lent_memory a.now b.now counts cells.now roots.now waiting sections
        d.now marks.now list.now) }
{
    if list[blocks] != 1 {
        return step_list::next_bit(marks, 0, blocks).is_some() || has_number(list);
    }
    let mut map = [0u8; MAX_BLOCKS / 8];
    !read_list(blocks, list, &mut map)
        || check_maps::has_stray_data(blocks, a, b, marks)
        || has_unmarked(blocks, marks, &map)
        || has_missed_root(blocks, roots, marks)
        || has_missed_cell(blocks, b, d, cells, marks, &map)
}
