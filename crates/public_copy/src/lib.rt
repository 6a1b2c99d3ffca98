// The public call on two heaps: what the roots of the first lead to is copied into the second, which the call formats (request U14). The first
// is only read. All tests are on shared slices, and the second heap is written only where none refuses.

#![tactic(auto)]

ghost use Rattle.std.specs.Prelude.{length};
ghost use Rattle.types.specs.Told.{tested};
ghost use Rattle.rules.specs.Heap.{shape};
ghost use Rattle.rules.specs.Lent.{before, after};
ghost use Rattle.rules_calls.specs.Promise.{CopyPromise};
ghost use Rattle.public_copy.specs.Gated.{CopyGated};

use types::{Ref, Refusal, Reply};

// The tests of a copy but the last, whether each object finds a chunk. Of the second heap only the lengths are known.
fn test(
    blocks: usize,
    width: usize,
    a: &[u8],
    b: &[u8],
    counts: &[u8],
    cells: &[Ref],
    roots: &[Ref],
    waiting: &[Ref],
    sections: &[Ref],
    d: &[u8],
    marks: &[u8],
    list: &[Ref],
    blocks2: usize,
    width2: usize,
    a2: usize,
    b2: usize,
    counts2: usize,
    cells2: usize,
    roots2: usize,
    waiting2: usize,
    sections2: usize,
    d2: usize,
    marks2: usize,
    list2: usize,
) -> Result<(), Refusal>
    ensures { CopyGated blocks width
        (before a.now b.now counts.now cells.now roots.now waiting.now sections.now d.now marks.now list.now) blocks2 width2
        (shape blocks2 width2 a2 b2 counts2 cells2 roots2 waiting2 sections2 d2 marks2 list2) roots2 (tested result) }
{
    if !check_shape::is_shaped(
        blocks2, width2, a2, b2, counts2, cells2, roots2, waiting2, sections2, d2, marks2, list2,
    ) {
        return Err(Refusal::Misshapen);
    }
    if roots.len() != roots2 {
        return Err(Refusal::Misshapen);
    }
    test_calls::none_open(
        blocks, width, a, b, counts, cells, roots, waiting, sections, d, marks, list,
    )
}

// Copies the first heap into the second. The value is the number of blocks in use there.
pub fn copy(
    blocks: usize,
    width: usize,
    a: &[u8],
    b: &[u8],
    counts: &[u8],
    cells: &[Ref],
    roots: &[Ref],
    waiting: &[Ref],
    sections: &[Ref],
    d: &[u8],
    marks: &[u8],
    list: &[Ref],
    blocks2: usize,
    width2: usize,
    a2: &mut [u8],
    b2: &mut [u8],
    counts2: &mut [u8],
    cells2: &mut [Ref],
    roots2: &mut [Ref],
    waiting2: &mut [Ref],
    sections2: &mut [Ref],
    d2: &mut [u8],
    marks2: &mut [u8],
    list2: &mut [Ref],
) -> Reply
    ensures { CopyPromise blocks width
        (before a.now b.now counts.now cells.now roots.now waiting.now sections.now d.now marks.now list.now) blocks2 width2
        (before a2.old b2.old counts2.old cells2.old roots2.old waiting2.old sections2.old d2.old marks2.old list2.old) result
        (after a.now b.now counts.now cells.now roots.now waiting.now sections.now d.now marks.now list.now)
        (after a2.new b2.new counts2.new cells2.new roots2.new waiting2.new sections2.new d2.new marks2.new list2.new) }
{
    if let Err(refusal) = test(
        blocks,
        width,
        a,
        b,
        counts,
        cells,
        roots,
        waiting,
        sections,
        d,
        marks,
        list,
        blocks2,
        width2,
        a2.len(),
        b2.len(),
        counts2.len(),
        cells2.len(),
        roots2.len(),
        waiting2.len(),
        sections2.len(),
        d2.len(),
        marks2.len(),
        list2.len(),
    ) {
        return refusal.into();
    }
    work_copy::copy(
        blocks, width, a, b, counts, cells, roots, waiting, sections, d, marks, list, blocks2,
        width2, a2, b2, counts2, cells2, roots2, waiting2, sections2, d2, marks2, list2,
    )
}
