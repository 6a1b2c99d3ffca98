// The public calls that write into a lent output, which is no part of the heap: the reason why an object is
// kept (request U11), and the heap's shape (request U13).

#![tactic(auto)]

ghost use Rattle.rules.specs.Lent.{before, after};
ghost use Rattle.rules_calls.specs.Promise.{ReasonPromise, ShapePromise};

use types::{Ref, Reply};

// The reason why the object at block `at` is kept, as a sentence.
pub fn reason(
    blocks: usize,
    width: usize,
    a: &[u8],
    b: &[u8],
    counts: &[u8],
    cells: &[Ref],
    roots: &[Ref],
    waiting: &[Ref],
    sections: &[Ref],
    d: &[u8],
    marks: &[u8],
    list: &[Ref],
    at: usize,
    out: &mut [u8],
) -> Reply
    ensures { ReasonPromise blocks width at
        (before a.now b.now counts.now cells.now roots.now waiting.now sections.now d.now marks.now list.now) out.old result
        (after a.now b.now counts.now cells.now roots.now waiting.now sections.now d.now marks.now list.now) out.new }
{
    if let Err(refusal) = public_read::test_heap(
        blocks, width, a, b, counts, cells, roots, waiting, sections, d, marks, list,
    ) {
        return refusal.into(); // no sentence is written
    }
    walk_reason::reason(
        blocks, width, a, b, counts, cells, roots, waiting, sections, d, marks, list, at, out,
    )
}

// The heap's shape, as a list of numbers.
pub fn shape(
    blocks: usize,
    width: usize,
    a: &[u8],
    b: &[u8],
    counts: &[u8],
    cells: &[Ref],
    roots: &[Ref],
    waiting: &[Ref],
    sections: &[Ref],
    d: &[u8],
    marks: &[u8],
    list: &[Ref],
    out: &mut [u32],
) -> Reply
    ensures { ShapePromise blocks width
        (before a.now b.now counts.now cells.now roots.now waiting.now sections.now d.now marks.now list.now) out.old result
        (after a.now b.now counts.now cells.now roots.now waiting.now sections.now d.now marks.now list.now) out.new }
{
    if let Err(refusal) = public_read::test_heap(
        blocks, width, a, b, counts, cells, roots, waiting, sections, d, marks, list,
    ) {
        return refusal.into(); // no shape is written
    }
    walk_shape::shape(
        blocks, width, a, b, counts, cells, roots, waiting, sections, d, marks, list, out,
    )
}
