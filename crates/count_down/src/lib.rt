// References dropped: what they name is counted down. The waiting list is the stack of objects whose count came to 0.

#![tactic(auto)]

ghost use Rattle.std.specs.Prelude.{◌≡◌, ◌+◌, ◌*◌, ◌%◌, ◌<◌, ◌≤◌, length};
ghost use Rattle.bitmap.specs.Bit.{set_bit};
ghost use Rattle.rules.specs.Heap.{max_blocks};
ghost use Rattle.rules_stores.specs.Store.{work, count_down, count_down_each, clear_cells, naming_cells};
ghost use Rattle.step_marks.specs.Marks.{freed_marks};
ghost use Rattle.count_up.specs.Ready.{Planes};
ghost use Rattle.count_up.specs.Stack.{top_first, counted, remaining, Stack, Worked};

use map_objects::lists::any_of_four;
use map_objects::names::named_block;
use types::Ref;

// Counts down the object that v names, if any; where its count comes to 0 it goes onto the stack. The stack's new height.
pub fn count_down(
    blocks: usize,
    width: usize,
    counts: &mut [u8],
    waiting: &mut [Ref],
    v: Ref,
    top: usize,
) -> usize
    requires { Planes blocks width counts.old × Stack counted blocks width counts.old waiting.old top }
    ensures { Worked counted blocks width
        (count_down blocks width (work counts.old (top_first waiting.old top)) v)
        (remaining counted blocks width counts.old top)
        counts.new waiting.new result }
{
    let Some(block) = named_block(blocks, v) else {
        return top;
    };
    let count = planes::get_count(counts, blocks / 8, width, block);
    // 0 never on an undamaged heap, where what is named has a count: the test keeps `count - 1` in range.
    if count == 0 || count == types::capacity_of(width) {
        return top;
    }
    planes::set_count(counts, blocks / 8, width, block, count - 1);
    if count == 1 {
        waiting[top] = v - 1;
        top + 1
    } else {
        top
    }
}

// Clears the four cells of a block, from cell j on, and counts down what they named. Where they are 0, as most
// are, they named nothing, and nothing is written.
fn drop_four(
    blocks: usize,
    width: usize,
    counts: &mut [u8],
    cells: &mut [Ref],
    waiting: &mut [Ref],
    j: usize,
    mut top: usize,
) -> usize
    requires { Planes blocks width counts.old × Stack counted blocks width counts.old waiting.old top
        × (j + 4 ≤ length cells.old) }
    ensures { Worked counted blocks width
        (count_down_each blocks width (work counts.old (top_first waiting.old top)) cells.old j 4)
        (remaining counted blocks width counts.old top)
        counts.new waiting.new result
        × (cells.new ≡ clear_cells cells.old j 4) }
{
    if any_of_four(cells, j) == 0 {
        return top;
    }
    for &v in &cells[j..j + 4] {
        top = count_down(blocks, width, counts, waiting, v, top);
    }
    map_extents::clear_cells(cells, j, 4);
    top
}

// The same for the n cells of whole blocks, from cell j on.
fn drop_cells(
    blocks: usize,
    width: usize,
    counts: &mut [u8],
    cells: &mut [Ref],
    waiting: &mut [Ref],
    j: usize,
    n: usize,
    mut top: usize,
) -> usize
    requires { Planes blocks width counts.old × Stack counted blocks width counts.old waiting.old top
        × (j + n ≤ length cells.old) × (n % 4 ≡ 0) }
    ensures { Worked counted blocks width
        (count_down_each blocks width (work counts.old (top_first waiting.old top)) cells.old j n)
        (remaining counted blocks width counts.old top)
        counts.new waiting.new result
        × (cells.new ≡ clear_cells cells.old j n) }
{
    for i in 0..n / 4 {
        top = drop_four(blocks, width, counts, cells, waiting, j + 4 * i, top);
    }
    top
}

// How many cells of the object of n blocks at block i may name others: of data none. Its D bit becomes 0.
fn end_kind(d: &mut [u8], i: usize, n: usize) -> usize
    requires { (i < 8 * length d.old) × (n ≤ max_blocks) }
    ensures { (result ≡ naming_cells d.old i n) × (result ≤ 4 * n) × (d.new ≡ set_bit d.old i 0) × (result % 4 ≡ 0) }
{
    // Where the bit is 0, as in all but data, nothing is written.
    if bitmap::get_bit(d, i) == 1 {
        bitmap::set_bit(d, i, 0);
        0
    } else {
        4 * n
    }
}

// The cells and the D bit of the object of n blocks at block i, which is freed, are cleared, and what its cells named is counted
// down; while a collection is open (`shade`) the object leaves the mark map, and what its cells named is marked. Cells of data
// named nothing.
pub fn drop_object(
    blocks: usize,
    width: usize,
    counts: &mut [u8],
    cells: &mut [Ref],
    waiting: &mut [Ref],
    d: &mut [u8],
    marks: &mut [u8],
    i: usize,
    n: usize,
    top: usize,
    shade: bool,
) -> usize
    requires { Planes blocks width counts.old × Stack counted blocks width counts.old waiting.old top
        × (i + n ≤ blocks) × (i < blocks) × (length cells.old ≡ 4 * blocks) × (blocks ≤ 8 * length d.old)
        × (blocks ≤ 8 * length marks.old) }
    ensures { Worked counted blocks width
        (count_down_each blocks width (work counts.old (top_first waiting.old top)) cells.old (4 * i)
        (naming_cells d.old i n))
        (remaining counted blocks width counts.old top)
        counts.new waiting.new result
        × (cells.new ≡ clear_cells cells.old (4 * i) (4 * n))
        × (d.new ≡ set_bit d.old i 0)
        × (marks.new
        ≡ freed_marks shade blocks marks.old cells.old i (naming_cells d.old i n)) }
{
    let all = 4 * n;
    let named = end_kind(d, i, n);
    step_marks::shade_freed(blocks, cells, marks, i, named, shade);
    let top = drop_cells(blocks, width, counts, cells, waiting, 4 * i, named, top);
    map_extents::clear_cells(cells, 4 * i + named, all - named);
    top
}
