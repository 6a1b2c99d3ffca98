// The calls that write, on an undamaged heap with a cleared waiting list: their tests, and their work where these pass.

#![tactic(auto)]

ghost use Rattle.types.specs.Told.{came_of};
ghost use Rattle.rules.specs.Lent.{before, after, lent};
ghost use Rattle.rules_calls.specs.Calls.{Call, allocate_as};
ghost use Rattle.theory_memories.specs.Heaps.{Usable};
ghost use Rattle.theory.specs.Usable.{Worked};

use test_arguments::{collecting, numbers, storing};
use types::{Outcome, Ref, Refusal};

// Allocates n blocks into root r, as data or as an ordinary object (request U6); a refused allocation frees nothing.
pub fn allocate(
    blocks: usize,
    width: usize,
    a: &mut [u8],
    b: &mut [u8],
    counts: &mut [u8],
    cells: &mut [Ref],
    roots: &mut [Ref],
    waiting: &mut [Ref],
    sections: &mut [Ref],
    d: &mut [u8],
    marks: &mut [u8],
    list: &mut [Ref],
    as_data: bool,
    n: usize,
    r: usize,
) -> Result<Outcome, Refusal>
    requires { Usable blocks width (lent a.old b.old counts.old cells.old roots.old waiting.old sections.old d.old marks.old list.old) }
    ensures { Worked blocks width (allocate_as as_data n r)
        (before a.old b.old counts.old cells.old roots.old waiting.old sections.old d.old marks.old list.old) (came_of result)
        (after a.new b.new counts.new cells.new roots.new waiting.new sections.new d.new marks.new list.new) }
{
    let at = test_allocation::allocate_reply(blocks, a, sections, roots.len(), n, r)?;
    Ok(work_allocate::allocate(
        blocks, width, a, b, counts, cells, roots, waiting, sections, d, marks, list, as_data, n,
        r, at,
    ))
}

// Stores v in root r.
pub fn store_root(
    blocks: usize,
    width: usize,
    a: &mut [u8],
    b: &mut [u8],
    counts: &mut [u8],
    cells: &mut [Ref],
    roots: &mut [Ref],
    waiting: &mut [Ref],
    sections: &mut [Ref],
    d: &mut [u8],
    marks: &mut [u8],
    list: &mut [Ref],
    r: usize,
    v: usize,
) -> Result<Outcome, Refusal>
    requires { Usable blocks width (lent a.old b.old counts.old cells.old roots.old waiting.old sections.old d.old marks.old list.old) }
    ensures { Worked blocks width (Call.store_root r v)
        (before a.old b.old counts.old cells.old roots.old waiting.old sections.old d.old marks.old list.old) (came_of result)
        (after a.new b.new counts.new cells.new roots.new waiting.new sections.new d.new marks.new list.new) }
{
    storing::store_root_test(blocks, a, b, roots, r, v)?;
    Ok(work_root::store_root(
        blocks, width, a, b, counts, cells, roots, waiting, sections, d, marks, list, r, v,
    ))
}

// Stores v in cell j of the object at block `at`.
pub fn store_cell(
    blocks: usize,
    width: usize,
    a: &mut [u8],
    b: &mut [u8],
    counts: &mut [u8],
    cells: &mut [Ref],
    roots: &[Ref],
    waiting: &mut [Ref],
    sections: &mut [Ref],
    d: &mut [u8],
    marks: &mut [u8],
    list: &mut [Ref],
    at: usize,
    j: usize,
    v: usize,
) -> Result<Outcome, Refusal>
    requires { Usable blocks width (lent a.old b.old counts.old cells.old roots.now waiting.old sections.old d.old marks.old list.old) }
    ensures { Worked blocks width (Call.store_cell at j v)
        (before a.old b.old counts.old cells.old roots.now waiting.old sections.old d.old marks.old list.old) (came_of result)
        (after a.new b.new counts.new cells.new roots.now waiting.new sections.new d.new marks.new list.new) }
{
    storing::store_cell_test(blocks, a, b, d, at, j, v)?;
    Ok(work_cell::store_cell(
        blocks, width, a, b, counts, cells, roots, waiting, sections, d, marks, list, at, j, v,
    ))
}

// Writes the number x into cell j of the data at block `at` (request U6). The cells alone are written.
pub fn write_number(
    blocks: usize,
    width: usize,
    a: &[u8],
    b: &[u8],
    counts: &[u8],
    cells: &mut [Ref],
    roots: &[Ref],
    waiting: &[Ref],
    sections: &[Ref],
    d: &[u8],
    marks: &[u8],
    list: &[Ref],
    at: usize,
    j: usize,
    x: Ref,
) -> Result<Outcome, Refusal>
    requires { Usable blocks width (lent a.now b.now counts.now cells.old roots.now waiting.now sections.now d.now marks.now list.now) }
    ensures { Worked blocks width (Call.write_number at j x)
        (before a.now b.now counts.now cells.old roots.now waiting.now sections.now d.now marks.now list.now) (came_of result)
        (after a.now b.now counts.now cells.new roots.now waiting.now sections.now d.now marks.now list.now) }
{
    numbers::number_test(blocks, a, b, d, at, j)?;
    Ok(work_number::write_number(cells, at, j, x))
}

// Collects, where no collection in small steps is open (request U8).
pub fn collect(
    blocks: usize,
    width: usize,
    a: &mut [u8],
    b: &mut [u8],
    counts: &mut [u8],
    cells: &mut [Ref],
    roots: &[Ref],
    waiting: &mut [Ref],
    sections: &mut [Ref],
    d: &mut [u8],
    marks: &[u8],
    list: &[Ref],
) -> Result<Outcome, Refusal>
    requires { Usable blocks width (lent a.old b.old counts.old cells.old roots.now waiting.old sections.old d.old marks.now list.now) }
    ensures { Worked blocks width Call.collect
        (before a.old b.old counts.old cells.old roots.now waiting.old sections.old d.old marks.now list.now) (came_of result)
        (after a.new b.new counts.new cells.new roots.now waiting.new sections.new d.new marks.now list.now) }
{
    collecting::shut_test(blocks, list)?;
    Ok(work_collect::collect(
        blocks, width, a, b, counts, cells, roots, waiting, sections, d, marks, list,
    ))
}
