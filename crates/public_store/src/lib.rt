// The public calls that assign references, the store in a root, the store in a cell, the return of a set of roots, and the write of a number.
// Each passes its gate first, which has all its tests on shared slices, and only then writes, so that a refusal can't write.

#![tactic(auto)]

ghost use Rattle.rules.specs.Lent.{before, after};
ghost use Rattle.rules_calls.specs.Calls.{Call};
ghost use Rattle.rules_calls.specs.Promise.{Promise};

use map_objects::lists;
use types::{Ref, Reply};

// Stores v in root r. The value is the number of blocks freed.
pub fn store_root(
    blocks: usize,
    width: usize,
    a: &mut [u8],
    b: &mut [u8],
    counts: &mut [u8],
    cells: &mut [Ref],
    roots: &mut [Ref],
    waiting: &mut [Ref],
    sections: &mut [Ref],
    d: &mut [u8],
    marks: &mut [u8],
    list: &mut [Ref],
    r: usize,
    v: usize,
) -> Reply
    ensures { Promise blocks width (Call.store_root r v)
        (before a.old b.old counts.old cells.old roots.old waiting.old sections.old d.old marks.old list.old) result
        (after a.new b.new counts.new cells.new roots.new waiting.new sections.new d.new marks.new list.new) }
{
    if let Err(refusal) = test_calls::store_root(
        blocks, width, a, b, counts, cells, roots, waiting, sections, d, marks, list, r, v,
    ) {
        return refusal.into();
    }
    lists::clear_all(waiting);
    work_root::store_root(
        blocks, width, a, b, counts, cells, roots, waiting, sections, d, marks, list, r, v,
    )
    .into()
}

// Stores v in cell j of the object at block `at`. The value is the number of blocks freed.
pub fn store_cell(
    blocks: usize,
    width: usize,
    a: &mut [u8],
    b: &mut [u8],
    counts: &mut [u8],
    cells: &mut [Ref],
    roots: &[Ref],
    waiting: &mut [Ref],
    sections: &mut [Ref],
    d: &mut [u8],
    marks: &mut [u8],
    list: &mut [Ref],
    at: usize,
    j: usize,
    v: usize,
) -> Reply
    ensures { Promise blocks width (Call.store_cell at j v)
        (before a.old b.old counts.old cells.old roots.now waiting.old sections.old d.old marks.old list.old) result
        (after a.new b.new counts.new cells.new roots.now waiting.new sections.new d.new marks.new list.new) }
{
    if let Err(refusal) = test_calls::store_cell(
        blocks, width, a, b, counts, cells, roots, waiting, sections, d, marks, list, at, j, v,
    ) {
        return refusal.into();
    }
    lists::clear_all(waiting);
    work_cell::store_cell(
        blocks, width, a, b, counts, cells, roots, waiting, sections, d, marks, list, at, j, v,
    )
    .into()
}

// Clears the roots of a set, bit r of `chosen` for root r, the lowest first. The value is the number of blocks freed in all.
pub fn return_roots(
    blocks: usize,
    width: usize,
    a: &mut [u8],
    b: &mut [u8],
    counts: &mut [u8],
    cells: &mut [Ref],
    roots: &mut [Ref],
    waiting: &mut [Ref],
    sections: &mut [Ref],
    d: &mut [u8],
    marks: &mut [u8],
    list: &mut [Ref],
    chosen: u64,
) -> Reply
    ensures { Promise blocks width (Call.return_roots chosen)
        (before a.old b.old counts.old cells.old roots.old waiting.old sections.old d.old marks.old list.old) result
        (after a.new b.new counts.new cells.new roots.new waiting.new sections.new d.new marks.new list.new) }
{
    if let Err(refusal) = test_calls::return_roots(
        blocks, width, a, b, counts, cells, roots, waiting, sections, d, marks, list, chosen,
    ) {
        return refusal.into();
    }
    lists::clear_all(waiting);
    work_return::clear_roots(
        blocks, width, a, b, counts, cells, roots, waiting, sections, d, marks, list, chosen,
    )
    .into()
}

// Writes the number x into cell j of the data at block `at` (request U6). Nothing but the cell is written: no reference is stored and nothing
// freed, so that the waiting list keeps its content too.
pub fn write_number(
    blocks: usize,
    width: usize,
    a: &[u8],
    b: &[u8],
    counts: &[u8],
    cells: &mut [Ref],
    roots: &[Ref],
    waiting: &[Ref],
    sections: &[Ref],
    d: &[u8],
    marks: &[u8],
    list: &[Ref],
    at: usize,
    j: usize,
    x: Ref,
) -> Reply
    ensures { Promise blocks width (Call.write_number at j x)
        (before a.now b.now counts.now cells.old roots.now waiting.now sections.now d.now marks.now list.now) result
        (after a.now b.now counts.now cells.new roots.now waiting.now sections.now d.now marks.now list.now) }
{
    if let Err(refusal) = test_calls::write_number(
        blocks, width, a, b, counts, cells, roots, waiting, sections, d, marks, list, at, j, x,
    ) {
        return refusal.into();
    }
    work_number::write_number(cells, at, j, x).into()
}
