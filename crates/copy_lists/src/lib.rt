// The plan of a copy into a second heap (request U14), and, where each object has its place, the lists of the second heap that objects and roots
// stand in, written by it. Where one finds no chunk nothing is written.

#![tactic(auto)]

ghost use Rattle.std.specs.Prelude.{◌≡◌, ◌/◌, ◌≤◌, length};
ghost use Rattle.rules.specs.Heap.{max_blocks};
ghost use Rattle.walk_objects.specs.Walking.{walked_heap, Walkable, Tracing};
ghost use Rattle.refinement_copy.specs.Routed.{Routed, copied_lists, filled_lists};
ghost use Rattle.copy_lists.specs.Written.{Fillable, CopyWritten};

use map_objects::lists;
use types::{MAX_BLOCKS, MIDDLE_ROOM, Ref, SMALL_ROOM};

// Writes the lists of the second heap that objects and roots stand in, by the plan. Counts are left stuck.
fn fill_lists(
    blocks: usize,
    a: &[u8],
    b: &[u8],
    d: &[u8],
    cells: &[Ref],
    roots: &[Ref],
    order: &[Ref],
    moved: &[Ref],
    met: usize,
    blocks2: usize,
    width2: usize,
    a2: &mut [u8],
    b2: &mut [u8],
    counts2: &mut [u8],
    cells2: &mut [Ref],
    roots2: &mut [Ref],
    d2: &mut [u8],
)
    requires { Walkable blocks a.now b.now d.now cells.now roots.now
        × Routed blocks (walked_heap a.now b.now d.now cells.now roots.now) blocks2 order.now moved.now met
        × Fillable blocks2 width2 (length roots.now) a2.old b2.old counts2.old cells2.old roots2.old d2.old }
    ensures { copied_lists a2.new b2.new counts2.new cells2.new roots2.new d2.new
        ≡ filled_lists blocks (walked_heap a.now b.now d.now cells.now roots.now)
        blocks2 width2 }
{
    bitmap::fill_bytes(a2, 0);
    bitmap::fill_bytes(b2, 255);
    bitmap::fill_bytes(counts2, 0);
    lists::clear_all(cells2);
    bitmap::fill_bytes(d2, 0);
    copy_objects::copy_objects(
        blocks, b, d, cells, order, moved, met, blocks2, width2, a2, b2, counts2, cells2, d2,
    );
    copy_objects::move_references(moved, roots, 0, roots2, 0, roots.len());
}

// Plans, and where each object has its place writes. Whether it has. The walk and the plan are in arrays that are lent for them.
fn write_in(
    blocks: usize,
    a: &[u8],
    b: &[u8],
    d: &[u8],
    cells: &[Ref],
    roots: &[Ref],
    blocks2: usize,
    width2: usize,
    a2: &mut [u8],
    b2: &mut [u8],
    counts2: &mut [u8],
    cells2: &mut [Ref],
    roots2: &mut [Ref],
    d2: &mut [u8],
    order: &mut [Ref],
    numbers: &mut [Ref],
    owners: &mut [Ref],
    vias: &mut [Ref],
) -> bool
    requires { Walkable blocks a.now b.now d.now cells.now roots.now
        × Fillable blocks2 width2 (length roots.now) a2.old b2.old counts2.old cells2.old roots2.old d2.old
        × Tracing blocks order.old numbers.old owners.old vias.old 0 }
    ensures { CopyWritten blocks (walked_heap a.now b.now d.now cells.now roots.now)
        blocks2 width2 (copied_lists a2.old b2.old counts2.old cells2.old roots2.old d2.old)
        (copied_lists a2.new b2.new counts2.new cells2.new roots2.new d2.new) result }
{
    let met = walk_objects::trace_all(blocks, a, b, d, cells, roots, order, numbers, owners, vias);
    if copy_plan::plan(blocks, b, order, numbers, met, blocks2) {
        fill_lists(
            blocks, a, b, d, cells, roots, order, numbers, met, blocks2, width2, a2, b2, counts2,
            cells2, roots2, d2,
        );
        true
    } else {
        false
    }
}

// .. in arrays of so many places. Not inlined: they are on the stack only while this runs, so that a small heap does not take the stack of the
// largest.
#[inline(never)]
fn write_in_arrays<const PLACES: usize>(
    blocks: usize,
    a: &[u8],
    b: &[u8],
    d: &[u8],
    cells: &[Ref],
    roots: &[Ref],
    blocks2: usize,
    width2: usize,
    a2: &mut [u8],
    b2: &mut [u8],
    counts2: &mut [u8],
    cells2: &mut [Ref],
    roots2: &mut [Ref],
    d2: &mut [u8],
) -> bool
    requires { Walkable blocks a.now b.now d.now cells.now roots.now
        × Fillable blocks2 width2 (length roots.now) a2.old b2.old counts2.old cells2.old roots2.old d2.old
        × (blocks ≤ PLACES) × (PLACES ≤ max_blocks) }
    ensures { CopyWritten blocks (walked_heap a.now b.now d.now cells.now roots.now)
        blocks2 width2 (copied_lists a2.old b2.old counts2.old cells2.old roots2.old d2.old)
        (copied_lists a2.new b2.new counts2.new cells2.new roots2.new d2.new) result }
{
    let mut order = [0 as Ref; PLACES];
    let mut numbers = [0 as Ref; PLACES];
    let mut owners = [0 as Ref; PLACES];
    let mut vias = [0 as Ref; PLACES];
    write_in(
        blocks,
        a,
        b,
        d,
        cells,
        roots,
        blocks2,
        width2,
        a2,
        b2,
        counts2,
        cells2,
        roots2,
        d2,
        &mut order,
        &mut numbers,
        &mut owners,
        &mut vias,
    )
}

// Plans, and where each object has its place writes. Whether it has.
pub fn write_lists(
    blocks: usize,
    a: &[u8],
    b: &[u8],
    d: &[u8],
    cells: &[Ref],
    roots: &[Ref],
    blocks2: usize,
    width2: usize,
    a2: &mut [u8],
    b2: &mut [u8],
    counts2: &mut [u8],
    cells2: &mut [Ref],
    roots2: &mut [Ref],
    d2: &mut [u8],
) -> bool
    requires { Walkable blocks a.now b.now d.now cells.now roots.now
        × Fillable blocks2 width2 (length roots.now) a2.old b2.old counts2.old cells2.old roots2.old d2.old }
    ensures { CopyWritten blocks (walked_heap a.now b.now d.now cells.now roots.now)
        blocks2 width2 (copied_lists a2.old b2.old counts2.old cells2.old roots2.old d2.old)
        (copied_lists a2.new b2.new counts2.new cells2.new roots2.new d2.new) result }
{
    // The arrays are the shortest of three that have a place for each block of the first heap, since they are cleared in every call.
    if blocks <= SMALL_ROOM {
        write_in_arrays::<SMALL_ROOM>(
            blocks, a, b, d, cells, roots, blocks2, width2, a2, b2, counts2, cells2, roots2, d2,
        )
    } else if blocks <= MIDDLE_ROOM {
        write_in_arrays::<MIDDLE_ROOM>(
            blocks, a, b, d, cells, roots, blocks2, width2, a2, b2, counts2, cells2, roots2, d2,
        )
    } else {
        write_in_arrays::<MAX_BLOCKS>(
            blocks, a, b, d, cells, roots, blocks2, width2, a2, b2, counts2, cells2, roots2, d2,
        )
    }
}
