// The public calls that only read: check, free blocks, look, and the read of a number.

#![tactic(auto)]

ghost use Rattle.types.specs.Told.{tested};
ghost use Rattle.rules.specs.Lent.{before, after};
ghost use Rattle.rules_calls.specs.Calls.{Call};
ghost use Rattle.rules_calls.specs.Promise.{Promise};

use test_arguments::{looking, numbers};
use types::{Ref, Refusal, Reply, replies};

// Whether the heap has the right shape, is undamaged, has a true list of sections, and marks and a second list as they have to be: number 1,
// or 2 with the damage kind, or 11, or 13, or 0. Every call but format tests the heap by this one.
pub fn test_heap(
    blocks: usize,
    width: usize,
    a: &[u8],
    b: &[u8],
    counts: &[u8],
    cells: &[Ref],
    roots: &[Ref],
    waiting: &[Ref],
    sections: &[Ref],
    d: &[u8],
    marks: &[u8],
    list: &[Ref],
) -> Result<(), Refusal>
    ensures { Promise blocks width Call.check
        (before a.now b.now counts.now cells.now roots.now waiting.now sections.now d.now marks.now list.now) (tested result)
        (after a.now b.now counts.now cells.now roots.now waiting.now sections.now d.now marks.now list.now) }
{
    if !check_shape::is_shaped(
        blocks,
        width,
        a.len(),
        b.len(),
        counts.len(),
        cells.len(),
        roots.len(),
        waiting.len(),
        sections.len(),
        d.len(),
        marks.len(),
        list.len(),
    ) {
        return Err(Refusal::Misshapen);
    }
    if let Some(damage) = check_damage::damage_kind(blocks, width, a, b, counts, cells, roots, d) {
        return Err(Refusal::Damaged(damage));
    }
    if section_figures::is_stale(blocks, a, sections) {
        return Err(Refusal::StaleSections);
    }
    if check_marks::is_untidy(blocks, a, b, d, cells, roots, marks, list) {
        return Err(Refusal::BadMarks);
    }
    Ok(())
}

// The same, as a reply.
pub fn check(
    blocks: usize,
    width: usize,
    a: &[u8],
    b: &[u8],
    counts: &[u8],
    cells: &[Ref],
    roots: &[Ref],
    waiting: &[Ref],
    sections: &[Ref],
    d: &[u8],
    marks: &[u8],
    list: &[Ref],
) -> Reply
    ensures { Promise blocks width Call.check
        (before a.now b.now counts.now cells.now roots.now waiting.now sections.now d.now marks.now list.now) result
        (after a.now b.now counts.now cells.now roots.now waiting.now sections.now d.now marks.now list.now) }
{
    test_heap(
        blocks, width, a, b, counts, cells, roots, waiting, sections, d, marks, list,
    )
    .into()
}

// The number of free blocks.
pub fn free_blocks(
    blocks: usize,
    width: usize,
    a: &[u8],
    b: &[u8],
    counts: &[u8],
    cells: &[Ref],
    roots: &[Ref],
    waiting: &[Ref],
    sections: &[Ref],
    d: &[u8],
    marks: &[u8],
    list: &[Ref],
) -> Reply
    ensures { Promise blocks width Call.free_blocks
        (before a.now b.now counts.now cells.now roots.now waiting.now sections.now d.now marks.now list.now) result
        (after a.now b.now counts.now cells.now roots.now waiting.now sections.now d.now marks.now list.now) }
{
    if let Err(refusal) = test_heap(
        blocks, width, a, b, counts, cells, roots, waiting, sections, d, marks, list,
    ) {
        return refusal.into(); // nothing is counted
    }
    replies::acceptance(bitmap::count_zeros(a))
}

// The size and the count of the object at block `at`.
pub fn look(
    blocks: usize,
    width: usize,
    a: &[u8],
    b: &[u8],
    counts: &[u8],
    cells: &[Ref],
    roots: &[Ref],
    waiting: &[Ref],
    sections: &[Ref],
    d: &[u8],
    marks: &[u8],
    list: &[Ref],
    at: usize,
) -> Reply
    ensures { Promise blocks width (Call.look at)
        (before a.now b.now counts.now cells.now roots.now waiting.now sections.now d.now marks.now list.now) result
        (after a.now b.now counts.now cells.now roots.now waiting.now sections.now d.now marks.now list.now) }
{
    if let Err(refusal) = test_heap(
        blocks, width, a, b, counts, cells, roots, waiting, sections, d, marks, list,
    ) {
        return refusal.into(); // nothing is looked at
    }
    looking::look_reply(blocks, width, a, b, counts, at)
}

// The number in cell j of the data at block `at` (request U6).
pub fn read_number(
    blocks: usize,
    width: usize,
    a: &[u8],
    b: &[u8],
    counts: &[u8],
    cells: &[Ref],
    roots: &[Ref],
    waiting: &[Ref],
    sections: &[Ref],
    d: &[u8],
    marks: &[u8],
    list: &[Ref],
    at: usize,
    j: usize,
) -> Reply
    ensures { Promise blocks width (Call.read_number at j)
        (before a.now b.now counts.now cells.now roots.now waiting.now sections.now d.now marks.now list.now) result
        (after a.now b.now counts.now cells.now roots.now waiting.now sections.now d.now marks.now list.now) }
{
    if let Err(refusal) = test_heap(
        blocks, width, a, b, counts, cells, roots, waiting, sections, d, marks, list,
    ) {
        return refusal.into();
    }
    numbers::read_reply(blocks, a, b, cells, d, at, j).into()
}
