// The steps of a collection (request U8). The lowest listed object is looked for from a bound on, below which
// none is listed, by flags of 256 blocks each: a step looks at N/256 flags, 32 bytes and 8 bits at most.

#![tactic(auto)]

ghost use Rattle.std.specs.Prelude.{◌≡◌, ◌+◌, ◌-◌, ◌*◌, ◌/◌, ◌<◌, ◌≤◌, eqb, length};
ghost use Rattle.rules.specs.Heap.{max_blocks};
ghost use Rattle.rules_steps.specs.Steps.{closes};
ghost use Rattle.step_list.specs.Naming.{named_from, cell_names};
ghost use Rattle.step_advance.specs.Steps.{progress_in, progress_at, steps_by, Went, Holding, Ended, Holds};
ghost use Rattle.step_advance.specs.Flags.{Flagged, Clear, Section, Looked, Flying, Flown};

use types::{MAX_BLOCKS, Ref};

// The block that v names, if any, is marked, and listed where it was not marked. No block below `low` is
// listed; the bound that holds then.
fn shade_one(
    blocks: usize,
    marks: &mut [u8],
    listed: &mut [u8],
    flags: &mut [u8],
    v: Ref,
    low: usize,
) -> usize
    requires { (blocks ≤ 8 * length marks.old) × (blocks ≤ 8 * length listed.old) × (blocks ≤ 256 * length flags.old) }
    ensures { Flying blocks (λ i. eqb v (i + 1)) marks.old listed.old flags.old low
        marks.new listed.new flags.new result }
{
    // Past the last block it names no object.
    if v == 0 || blocks < v as usize {
        return low;
    }
    let i = v as usize - 1;
    if bitmap::get_bit(marks, i) == 1 {
        return low;
    }
    bitmap::set_bit(marks, i, 1);
    bitmap::set_bit(listed, i, 1);
    flags[i / 256] = 1;
    i.min(low)
}

// The same for the n cells from cell j on.
fn shade_cells(
    blocks: usize,
    marks: &mut [u8],
    listed: &mut [u8],
    flags: &mut [u8],
    cells: &[Ref],
    j: usize,
    n: usize,
    low: usize,
) -> usize
    requires { (blocks ≤ 8 * length marks.old) × (blocks ≤ 8 * length listed.old) × (blocks ≤ 256 * length flags.old)
        × (j + n ≤ length cells.now) }
    ensures { Flying blocks (named_from cells.now j n) marks.old listed.old flags.old low
        marks.new listed.new flags.new result }
{
    let mut bound = low;
    for &v in &cells[j..j + n] {
        bound = shade_one(blocks, marks, listed, flags, v, bound);
    }
    bound
}

// A step at the object of block x, the lowest on the list. A bound below which none is listed then.
fn take_one(
    blocks: usize,
    b: &[u8],
    d: &[u8],
    cells: &[Ref],
    marks: &mut [u8],
    listed: &mut [u8],
    flags: &mut [u8],
    x: usize,
) -> usize
    requires { (blocks ≤ 8 * length b.now) × (blocks ≤ 8 * length d.now)
        × (length cells.now ≡ 4 * blocks) × (blocks ≤ max_blocks)
        × (blocks ≤ 8 * length marks.old) × (blocks ≤ 8 * length listed.old) × (blocks ≤ 256 * length flags.old) × (x < blocks) }
    ensures { Flown blocks (cell_names blocks b.now d.now cells.now x) x marks.old
        listed.old flags.old marks.new listed.new flags.new result }
{
    bitmap::set_bit(listed, x, 0);
    let n = map_objects::objects::object_size(blocks, b, x);
    let named = map_objects::objects::naming_cells(d, x, n);
    shade_cells(blocks, marks, listed, flags, cells, 4 * x, named, x)
}

// The end of the blocks of one flag, the one of block `from`.
fn section_end(blocks: usize, from: usize) -> usize
    requires { (from < blocks) × (blocks ≡ 8 * (blocks / 8)) × (blocks ≤ max_blocks) }
    ensures { Section blocks from result × (result ≡ 8 * (result / 8)) }
{
    ((from / 256 + 1) * 256).min(blocks)
}

// The lowest listed block from `from` on among those of its flag, if any. Below `from` none is listed.
fn look_in(blocks: usize, listed: &[u8], flags: &mut [u8], from: usize, end: usize) -> Option<usize>
    requires { Section blocks from end × (end ≡ 8 * (end / 8)) × (blocks ≤ max_blocks) × (blocks ≤ 8 * length listed.now)
        × (blocks ≤ 256 * length flags.old) × Flagged blocks listed.now flags.old × Clear listed.now from }
    ensures { Looked blocks from end listed.now flags.new result }
{
    if flags[from / 256] == 0 {
        return None;
    }
    let found = step_list::next_bit(listed, from, end);
    if found.is_none() {
        flags[from / 256] = 0;
    }
    found
}

// The lowest listed block, if any. Below `low` none is listed. A `while`, since its steps are flags, the first
// of which it may begin inside.
fn lowest_listed(blocks: usize, listed: &[u8], flags: &mut [u8], low: usize) -> Option<usize>
    requires { (blocks ≡ 8 * (blocks / 8)) × (blocks ≤ max_blocks) × (blocks ≤ 8 * length listed.now)
        × (blocks ≤ 256 * length flags.old) × Flagged blocks listed.now flags.old × Clear listed.now low × (low ≤ blocks) }
    ensures { Looked blocks 0 blocks listed.now flags.new result }
{
    let mut from = low;
    while from < blocks {
        let end = section_end(blocks, from);
        let found = look_in(blocks, listed, flags, from, end);
        if found.is_some() {
            return found;
        }
        from = end;
    }
    None
}

// At most `budget` steps, each at the lowest listed object. How many were taken.
fn step_all(
    blocks: usize,
    b: &[u8],
    d: &[u8],
    cells: &[Ref],
    marks: &mut [u8],
    listed: &mut [u8],
    flags: &mut [u8],
    budget: usize,
) -> usize
    requires { (blocks ≡ 8 * (blocks / 8)) × (blocks ≤ max_blocks) × (blocks ≤ 8 * length b.now) × (blocks ≤ 8 * length d.now)
        × (length cells.now ≡ 4 * blocks)
        × (blocks ≤ 8 * length marks.old) × (blocks ≤ 8 * length listed.old) × (blocks ≤ 256 * length flags.old)
        × Flagged blocks listed.old flags.old }
    ensures { Went blocks
        (steps_by budget blocks (cell_names blocks b.now d.now cells.now) (progress_in blocks marks.old listed.old))
        result marks.new listed.new }
{
    let mut low = 0;
    for taken in 0..budget {
        let Some(x) = lowest_listed(blocks, listed, flags, low) else {
            return taken;
        };
        low = take_one(blocks, b, d, cells, marks, listed, flags, x);
    }
    budget
}

// The same with flags of its own, at first all 1.
fn take_steps(
    blocks: usize,
    b: &[u8],
    d: &[u8],
    cells: &[Ref],
    marks: &mut [u8],
    listed: &mut [u8],
    budget: usize,
) -> usize
    requires { (blocks ≡ 8 * (blocks / 8)) × (blocks ≤ max_blocks) × (blocks ≤ 8 * length b.now) × (blocks ≤ 8 * length d.now)
        × (length cells.now ≡ 4 * blocks)
        × (blocks ≤ 8 * length marks.old) × (blocks ≤ 8 * length listed.old) }
    ensures { Went blocks
        (steps_by budget blocks (cell_names blocks b.now d.now cells.now) (progress_in blocks marks.old listed.old))
        result marks.new listed.new }
{
    let mut flags = [1u8; MAX_BLOCKS / 256];
    step_all(blocks, b, d, cells, marks, listed, &mut flags, budget)
}

// What a call's steps come to: how many were taken, and whether the collection is to be closed.
#[derive(Clone, Copy)]
pub struct Moves {
    pub steps: usize,
    pub done: bool,
}

// How many numbers stand on the second list: the place of its first 0.
fn listed_numbers(blocks: usize, list: &[Ref]) -> usize
    requires { (length list.now ≡ blocks + 1) × Ended blocks list.now }
    ensures { Holds blocks list.now result }
{
    list[..blocks]
        .iter()
        .position(|&v| v == 0)
        .unwrap_or(blocks)
}

// At most `budget` steps on the lent mark map and second list.
// Not inlined: its map is on the stack only while it runs.
#[inline(never)]
pub fn advance(
    blocks: usize,
    b: &[u8],
    d: &[u8],
    cells: &[Ref],
    marks: &mut [u8],
    list: &mut [Ref],
    budget: usize,
) -> Moves
    requires { (blocks ≡ 8 * (blocks / 8)) × (blocks ≤ max_blocks) × (blocks ≤ 8 * length b.now) × (blocks ≤ 8 * length d.now)
        × (length cells.now ≡ 4 * blocks) × (length marks.old ≡ blocks / 8) × (length list.old ≡ blocks + 1)
        × Ended blocks list.old }
    ensures { (result.steps
        ≡ (steps_by budget blocks (cell_names blocks b.now d.now cells.now) (progress_at blocks marks.old list.old)).steps)
        × (result.done
        ≡ closes budget (steps_by budget blocks (cell_names blocks b.now d.now cells.now) (progress_at blocks marks.old list.old)).reached)
        × Holding blocks
        (steps_by budget blocks (cell_names blocks b.now d.now cells.now) (progress_at blocks marks.old list.old)).reached
        marks.old marks.new list.new }
{
    let mut map = [0u8; MAX_BLOCKS / 8];
    let n = listed_numbers(blocks, list);
    step_list::name_all(blocks, list, n, &mut map);
    let steps = take_steps(blocks, b, d, cells, marks, &mut map, budget);
    step_list::write_list(blocks, &map, list);
    let done = budget > 0 && step_list::next_bit(&map, 0, blocks).is_none();
    Moves { steps, done }
}
