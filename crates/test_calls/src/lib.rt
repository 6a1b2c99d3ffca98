// The gates of the calls that write: all tests of a call, those of the heap and those of its own arguments, on shared slices. A gate can't
// write, and a call that is refused has done nothing but pass its gate.

#![tactic(auto)]

ghost use Rattle.std.specs.Prelude.{Bool, [], ℕ, length};
ghost use Rattle.types.specs.Told.{replied, tested};
ghost use Rattle.rules.specs.Heap.{memory, lent_memory};
ghost use Rattle.rules.specs.Lent.{before};
ghost use Rattle.rules_calls.specs.Calls.{Call, allocate_as};
ghost use Rattle.test_arguments.specs.Replies.{store_root_test, store_cell_test, number_test, return_test, shut_test, open_test};
ghost use Rattle.test_allocation.specs.Replies.{allocate_reply};
ghost use Rattle.test_calls.specs.Gated.{Gated};

use test_arguments::{collecting, numbers, returning, storing};
use types::{Ref, Refusal};

// The tests of an allocation of n blocks into root r, which are the same where it is made as data (request U6). The block where the object can
// start.
pub fn allocate(
    blocks: usize,
    width: usize,
    a: &[u8],
    b: &[u8],
    counts: &[u8],
    cells: &[Ref],
    roots: &[Ref],
    waiting: &[Ref],
    sections: &[Ref],
    d: &[u8],
    marks: &[u8],
    list: &[Ref],
    n: usize,
    r: usize,
) -> Result<usize, Refusal>
    ensures { (as_data : Bool)
        → Gated blocks width (allocate_as as_data n r)
        (before a.now b.now counts.now cells.now roots.now waiting.now sections.now d.now marks.now list.now) (replied result)
        (allocate_reply blocks a.now (length roots.now) n r) }
{
    public_read::test_heap(
        blocks, width, a, b, counts, cells, roots, waiting, sections, d, marks, list,
    )?;
    test_allocation::allocate_reply(blocks, a, sections, roots.len(), n, r)
}

// The tests of a store in root r.
pub fn store_root(
    blocks: usize,
    width: usize,
    a: &[u8],
    b: &[u8],
    counts: &[u8],
    cells: &[Ref],
    roots: &[Ref],
    waiting: &[Ref],
    sections: &[Ref],
    d: &[u8],
    marks: &[u8],
    list: &[Ref],
    r: usize,
    v: usize,
) -> Result<(), Refusal>
    ensures { Gated blocks width (Call.store_root r v)
        (before a.now b.now counts.now cells.now roots.now waiting.now sections.now d.now marks.now list.now) (tested result)
        (store_root_test blocks (memory a.now b.now [] [] roots.now []) r v) }
{
    public_read::test_heap(
        blocks, width, a, b, counts, cells, roots, waiting, sections, d, marks, list,
    )?;
    storing::store_root_test(blocks, a, b, roots, r, v)
}

// The tests of a store in cell j of the object at block `at`.
pub fn store_cell(
    blocks: usize,
    width: usize,
    a: &[u8],
    b: &[u8],
    counts: &[u8],
    cells: &[Ref],
    roots: &[Ref],
    waiting: &[Ref],
    sections: &[Ref],
    d: &[u8],
    marks: &[u8],
    list: &[Ref],
    at: usize,
    j: usize,
    v: usize,
) -> Result<(), Refusal>
    ensures { Gated blocks width (Call.store_cell at j v)
        (before a.now b.now counts.now cells.now roots.now waiting.now sections.now d.now marks.now list.now) (tested result)
        (store_cell_test blocks (lent_memory a.now b.now [] [] [] [] [] d.now [] []) at j v) }
{
    public_read::test_heap(
        blocks, width, a, b, counts, cells, roots, waiting, sections, d, marks, list,
    )?;
    storing::store_cell_test(blocks, a, b, d, at, j, v)
}

// The tests of a return of the roots of a set.
pub fn return_roots(
    blocks: usize,
    width: usize,
    a: &[u8],
    b: &[u8],
    counts: &[u8],
    cells: &[Ref],
    roots: &[Ref],
    waiting: &[Ref],
    sections: &[Ref],
    d: &[u8],
    marks: &[u8],
    list: &[Ref],
    chosen: u64,
) -> Result<(), Refusal>
    ensures { Gated blocks width (Call.return_roots chosen)
        (before a.now b.now counts.now cells.now roots.now waiting.now sections.now d.now marks.now list.now) (tested result)
        (return_test (length roots.now) chosen) }
{
    public_read::test_heap(
        blocks, width, a, b, counts, cells, roots, waiting, sections, d, marks, list,
    )?;
    returning::return_test(roots.len(), chosen)
}

// The tests of a write of a number into cell j of the data at block `at` (request U6). Any number is right.
pub fn write_number(
    blocks: usize,
    width: usize,
    a: &[u8],
    b: &[u8],
    counts: &[u8],
    cells: &[Ref],
    roots: &[Ref],
    waiting: &[Ref],
    sections: &[Ref],
    d: &[u8],
    marks: &[u8],
    list: &[Ref],
    at: usize,
    j: usize,
    v: Ref,
) -> Result<(), Refusal>
    ensures { Gated blocks width (Call.write_number at j v)
        (before a.now b.now counts.now cells.now roots.now waiting.now sections.now d.now marks.now list.now) (tested result)
        (number_test blocks (lent_memory a.now b.now [] [] [] [] [] d.now [] []) at j) }
{
    public_read::test_heap(
        blocks, width, a, b, counts, cells, roots, waiting, sections, d, marks, list,
    )?;
    numbers::number_test(blocks, a, b, d, at, j)
}

// The tests of a full collection, which are those of an opening (request U8): none may be open.
pub fn none_open(
    blocks: usize,
    width: usize,
    a: &[u8],
    b: &[u8],
    counts: &[u8],
    cells: &[Ref],
    roots: &[Ref],
    waiting: &[Ref],
    sections: &[Ref],
    d: &[u8],
    marks: &[u8],
    list: &[Ref],
) -> Result<(), Refusal>
    ensures { Gated blocks width Call.collect
        (before a.now b.now counts.now cells.now roots.now waiting.now sections.now d.now marks.now list.now) (tested result)
        (shut_test blocks list.now)
        × Gated blocks width Call.open_collection
        (before a.now b.now counts.now cells.now roots.now waiting.now sections.now d.now marks.now list.now) (tested result)
        (shut_test blocks list.now) }
{
    public_read::test_heap(
        blocks, width, a, b, counts, cells, roots, waiting, sections, d, marks, list,
    )?;
    collecting::shut_test(blocks, list)
}

// The tests of steps (request U8), whatever their budget: one has to be open.
pub fn one_open(
    blocks: usize,
    width: usize,
    a: &[u8],
    b: &[u8],
    counts: &[u8],
    cells: &[Ref],
    roots: &[Ref],
    waiting: &[Ref],
    sections: &[Ref],
    d: &[u8],
    marks: &[u8],
    list: &[Ref],
) -> Result<(), Refusal>
    ensures { (budget : ℕ)
        → Gated blocks width (Call.take_steps budget)
        (before a.now b.now counts.now cells.now roots.now waiting.now sections.now d.now marks.now list.now) (tested result)
        (open_test blocks list.now) }
{
    public_read::test_heap(
        blocks, width, a, b, counts, cells, roots, waiting, sections, d, marks, list,
    )?; // the heap's refusals come first
    collecting::open_test(blocks, list)
}
