// The public calls that make and free objects: format, allocate, allocate data, collect. Each has all its tests on shared slices first, and
// only then writes, so that a refusal can't write.

#![tactic(auto)]

ghost use Rattle.rules.specs.Lent.{before, after};
ghost use Rattle.rules_calls.specs.Calls.{Call};
ghost use Rattle.rules_calls.specs.Promise.{Promise};

use map_objects::lists;
use types::{Ref, Refusal, Reply};

// Makes an empty heap of whatever the buffers held.
pub fn format(
    blocks: usize,
    width: usize,
    a: &mut [u8],
    b: &mut [u8],
    counts: &mut [u8],
    cells: &mut [Ref],
    roots: &mut [Ref],
    waiting: &mut [Ref],
    sections: &mut [Ref],
    d: &mut [u8],
    marks: &mut [u8],
    list: &mut [Ref],
) -> Reply
    ensures { Promise blocks width Call.format
        (before a.old b.old counts.old cells.old roots.old waiting.old sections.old d.old marks.old list.old) result
        (after a.new b.new counts.new cells.new roots.new waiting.new sections.new d.new marks.new list.new) }
{
    if !check_shape::is_shaped(
        blocks,
        width,
        a.len(),
        b.len(),
        counts.len(),
        cells.len(),
        roots.len(),
        waiting.len(),
        sections.len(),
        d.len(),
        marks.len(),
        list.len(),
    ) {
        return Refusal::Misshapen.into();
    }
    work_format::format(
        blocks, width, a, b, counts, cells, roots, waiting, sections, d, marks, list,
    )
}

// Allocates n blocks into root r. The value is the first block.
pub fn allocate(
    blocks: usize,
    width: usize,
    a: &mut [u8],
    b: &mut [u8],
    counts: &mut [u8],
    cells: &mut [Ref],
    roots: &mut [Ref],
    waiting: &mut [Ref],
    sections: &mut [Ref],
    d: &mut [u8],
    marks: &mut [u8],
    list: &mut [Ref],
    n: usize,
    r: usize,
) -> Reply
    ensures { Promise blocks width (Call.allocate n r)
        (before a.old b.old counts.old cells.old roots.old waiting.old sections.old d.old marks.old list.old) result
        (after a.new b.new counts.new cells.new roots.new waiting.new sections.new d.new marks.new list.new) }
{
    let at = match test_calls::allocate(
        blocks, width, a, b, counts, cells, roots, waiting, sections, d, marks, list, n, r,
    ) {
        Ok(at) => at,
        Err(refusal) => return refusal.into(), // nothing is allocated
    };
    lists::clear_all(waiting);
    work_allocate::allocate(
        blocks, width, a, b, counts, cells, roots, waiting, sections, d, marks, list, false, n, r,
        at,
    )
    .into()
}

// Allocates n blocks of data into root r (request U6). The value is the first block. It differs from `allocate` in what it hands on alone; one
// function for both would hand all lists on once more.
pub fn allocate_data(
    blocks: usize,
    width: usize,
    a: &mut [u8],
    b: &mut [u8],
    counts: &mut [u8],
    cells: &mut [Ref],
    roots: &mut [Ref],
    waiting: &mut [Ref],
    sections: &mut [Ref],
    d: &mut [u8],
    marks: &mut [u8],
    list: &mut [Ref],
    n: usize,
    r: usize,
) -> Reply
    ensures { Promise blocks width (Call.allocate_data n r)
        (before a.old b.old counts.old cells.old roots.old waiting.old sections.old d.old marks.old list.old) result
        (after a.new b.new counts.new cells.new roots.new waiting.new sections.new d.new marks.new list.new) }
{
    let place = match test_calls::allocate(
        blocks, width, a, b, counts, cells, roots, waiting, sections, d, marks, list, n, r,
    ) {
        Ok(place) => place,
        Err(refusal) => return refusal.into(),
    };
    lists::clear_all(waiting);
    work_allocate::allocate(
        blocks, width, a, b, counts, cells, roots, waiting, sections, d, marks, list, true, n, r,
        place,
    )
    .into()
}

// Frees what no root reaches, and counts the rest anew. The value is the number of blocks freed. While a collection in small steps is open
// it is refused (request U8), so that marks and second list are only read.
pub fn collect(
    blocks: usize,
    width: usize,
    a: &mut [u8],
    b: &mut [u8],
    counts: &mut [u8],
    cells: &mut [Ref],
    roots: &[Ref],
    waiting: &mut [Ref],
    sections: &mut [Ref],
    d: &mut [u8],
    marks: &[u8],
    list: &[Ref],
) -> Reply
    ensures { Promise blocks width Call.collect
        (before a.old b.old counts.old cells.old roots.now waiting.old sections.old d.old marks.now list.now) result
        (after a.new b.new counts.new cells.new roots.now waiting.new sections.new d.new marks.now list.now) }
{
    if let Err(refusal) = test_calls::none_open(
        blocks, width, a, b, counts, cells, roots, waiting, sections, d, marks, list,
    ) {
        return refusal.into(); // nothing is collected
    }
    lists::clear_all(waiting);
    work_collect::collect(
        blocks, width, a, b, counts, cells, roots, waiting, sections, d, marks, list,
    )
    .into()
}
