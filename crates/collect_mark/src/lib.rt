// Marking: every reference of the roots and of the objects that they reach is counted anew, from none, in a local array with a byte for each
// block, and the count maps are then written from it. Cells of data are not looked at. A count that is not 0 is the mark. The waiting list,
// cleared before and after, is the stack of objects still to be scanned.

#![tactic(auto)]

ghost use Rattle.std.specs.Prelude.{◌≡◌, [], ℕ, ◌*◌, ◌/◌, ◌≤◌, length, get_or, replicate};
ghost use Rattle.rules.specs.Heap.{lent_memory, max_blocks};
ghost use Rattle.count_up.specs.Ready.{Planes};
ghost use Rattle.count_up.specs.Stack.{top_first};
ghost use Rattle.collect_counts.specs.Counts.{Counting, count_maps};
ghost use Rattle.collect_visit.specs.Visit.{Counted};
ghost use Rattle.collect_mark.specs.Mark.{scan, mark_counts, Markable, Marked};

use types::{MAX_BLOCKS, MIDDLE_ROOM, Ref, SMALL_ROOM};

// Visits what the cells of the objects on the stack name, until the stack is empty.
fn scan_all(
    blocks: usize,
    width: usize,
    b: &[u8],
    at: &mut [u8],
    cells: &[Ref],
    waiting: &mut [Ref],
    d: &[u8],
    top: usize,
)
    requires { Counted blocks width at.old waiting.old top
        × (length b.now ≡ blocks / 8) × (length cells.now ≡ 4 * blocks) × (length d.now ≡ blocks / 8) }
    ensures { (count_maps blocks width at.new
        ≡ scan blocks blocks width (lent_memory [] b.now [] cells.now [] [] [] d.now [] [])
        (count_maps blocks width at.old) (top_first waiting.old top))
        × (waiting.new ≡ replicate blocks 0)
        × Counting blocks width at.new }
{
    let mut height = top;
    // A `while`: it empties a stack, onto which each turn may put more.
    while 0 < height {
        height -= 1;
        let object = waiting[height] as usize;
        waiting[height] = 0;
        let size = map_objects::objects::object_size(blocks, b, object);
        let named = map_objects::objects::naming_cells(d, object, size);
        height = collect_visit::visit_blocks(
            blocks,
            width,
            at,
            cells,
            waiting,
            object,
            named / 4,
            height,
        );
    }
}

// Counts anew every reference of the roots and of the objects that they reach, in `at`, which is all 0.
fn mark_in(
    blocks: usize,
    width: usize,
    b: &[u8],
    counts: &mut [u8],
    cells: &[Ref],
    roots: &[Ref],
    waiting: &mut [Ref],
    d: &[u8],
    at: &mut [u8],
)
    requires { Markable blocks width b.now counts.old cells.now waiting.old d.now
        × (blocks ≤ length at.old) × ((i : ℕ) → get_or at.old i 0 ≡ 0) }
    ensures { Marked blocks width (lent_memory [] b.now [] cells.now roots.now [] [] d.now [] [])
        counts.new waiting.new }
{
    let top = collect_visit::visit_each(blocks, width, at, roots, waiting, 0, roots.len(), 0);
    scan_all(blocks, width, b, at, cells, waiting, d, top);
    collect_counts::write_counts(blocks, width, counts, at);
}

// .. in an array of so many places. Not inlined: the array is on the stack only while this runs, so that a small heap does not take the stack
// of the largest.
#[inline(never)]
fn mark_in_array<const PLACES: usize>(
    blocks: usize,
    width: usize,
    b: &[u8],
    counts: &mut [u8],
    cells: &[Ref],
    roots: &[Ref],
    waiting: &mut [Ref],
    d: &[u8],
)
    requires { Markable blocks width b.now counts.old cells.now waiting.old d.now × (blocks ≤ PLACES) × (PLACES ≤ max_blocks) }
    ensures { Marked blocks width (lent_memory [] b.now [] cells.now roots.now [] [] d.now [] [])
        counts.new waiting.new }
{
    let mut at = [0u8; PLACES];
    mark_in(blocks, width, b, counts, cells, roots, waiting, d, &mut at);
}

// Counts anew every reference of the roots and of the objects that they reach.
pub fn mark(
    blocks: usize,
    width: usize,
    b: &[u8],
    counts: &mut [u8],
    cells: &[Ref],
    roots: &[Ref],
    waiting: &mut [Ref],
    d: &[u8],
)
    requires { Planes blocks width counts.old × (length b.now ≡ blocks / 8) × (length cells.now ≡ 4 * blocks)
        × (waiting.old ≡ replicate blocks 0) × (length d.now ≡ blocks / 8) }
    ensures { (counts.new
        ≡ mark_counts blocks width
        (lent_memory [] b.now [] cells.now roots.now [] [] d.now [] []))
        × (waiting.new ≡ replicate blocks 0) }
{
    // The array is the shortest of three that has a place for each block, since it is cleared in every call.
    if blocks <= SMALL_ROOM {
        mark_in_array::<SMALL_ROOM>(blocks, width, b, counts, cells, roots, waiting, d);
    } else if blocks <= MIDDLE_ROOM {
        mark_in_array::<MIDDLE_ROOM>(blocks, width, b, counts, cells, roots, waiting, d);
    } else {
        mark_in_array::<MAX_BLOCKS>(blocks, width, b, counts, cells, roots, waiting, d);
    }
}
