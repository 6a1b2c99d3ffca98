// References visited, as marking does: what they name is counted up, in a list with a byte for each block. The waiting list is the stack of
// objects whose count left 0.

#![tactic(auto)]

ghost use Rattle.std.specs.Prelude.{◌+◌, ◌*◌, ◌<◌, ◌≤◌, length};
ghost use Rattle.rules.specs.Heap.{max_blocks};
ghost use Rattle.rules_stores.specs.Store.{work};
ghost use Rattle.count_up.specs.Stack.{top_first, uncounted, remaining};
ghost use Rattle.collect_counts.specs.Counts.{count_maps};
ghost use Rattle.collect_visit.specs.Visit.{visit, visit_each, Counted, VisitedTo};

use types::Ref;

// Counts up the object that v names, if any; where its count was 0 it goes onto the stack. The stack's new height.
fn visit_one(
    blocks: usize,
    width: usize,
    at: &mut [u8],
    waiting: &mut [Ref],
    v: Ref,
    top: usize,
) -> usize
    requires { Counted blocks width at.old waiting.old top }
    ensures { VisitedTo blocks width (visit blocks width (work (count_maps blocks width at.old) (top_first waiting.old top)) v)
        (remaining uncounted blocks width (count_maps blocks width at.old) top) at.new waiting.new result }
{
    // A number past the last block names no object.
    if v == 0 || blocks < v as usize {
        return top;
    }
    let block = v as usize - 1;
    let count = at[block];
    if count == 0 {
        at[block] = 1;
        waiting[top] = v - 1;
        top + 1
    } else {
        if count < types::capacity_of(width) {
            at[block] = count + 1;
        }
        top
    }
}

// Visits the n references from place j on.
pub fn visit_each(
    blocks: usize,
    width: usize,
    at: &mut [u8],
    refs: &[Ref],
    waiting: &mut [Ref],
    j: usize,
    n: usize,
    top: usize,
) -> usize
    requires { Counted blocks width at.old waiting.old top × (j + n ≤ length refs.now) }
    ensures { VisitedTo blocks width
        (visit_each blocks width (work (count_maps blocks width at.old) (top_first waiting.old top)) refs.now j n)
        (remaining uncounted blocks width (count_maps blocks width at.old) top) at.new waiting.new result }
{
    let mut height = top;
    for &v in &refs[j..j + n] {
        height = visit_one(blocks, width, at, waiting, v, height);
    }
    height
}

// Visits what the four cells of block i name. Most blocks have none that is not 0, and are passed over.
fn visit_block(
    blocks: usize,
    width: usize,
    at: &mut [u8],
    cells: &[Ref],
    waiting: &mut [Ref],
    i: usize,
    top: usize,
) -> usize
    requires { Counted blocks width at.old waiting.old top × (4 * (i + 1) ≤ length cells.now) × (i < max_blocks) }
    ensures { VisitedTo blocks width
        (visit_each blocks width (work (count_maps blocks width at.old) (top_first waiting.old top)) cells.now (4 * i) 4)
        (remaining uncounted blocks width (count_maps blocks width at.old) top) at.new waiting.new result }
{
    if map_objects::lists::any_of_four(cells, 4 * i) == 0 {
        top
    } else {
        visit_each(blocks, width, at, cells, waiting, 4 * i, 4, top)
    }
}

// Visits what the cells of the n blocks from block i on name.
pub fn visit_blocks(
    blocks: usize,
    width: usize,
    at: &mut [u8],
    cells: &[Ref],
    waiting: &mut [Ref],
    i: usize,
    n: usize,
    top: usize,
) -> usize
    requires { Counted blocks width at.old waiting.old top × (4 * (i + n) ≤ length cells.now) × (i + n ≤ max_blocks) }
    ensures { VisitedTo blocks width
        (visit_each blocks width (work (count_maps blocks width at.old) (top_first waiting.old top)) cells.now (4 * i) (4 * n))
        (remaining uncounted blocks width (count_maps blocks width at.old) top) at.new waiting.new result }
{
    let mut height = top;
    // Not `for block in i..i + n`: that took an eighth longer over objects of one block.
    for k in 0..n {
        height = visit_block(blocks, width, at, cells, waiting, i + k, height);
    }
    height
}
