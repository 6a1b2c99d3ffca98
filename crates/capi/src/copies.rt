// The copy into a second heap (request U14).
ghost use Rattle.rules.specs.Lent.{before, after};
ghost use Rattle.rules_calls.specs.Promise.{CopyPromise};

use types::{Ref, Reply};

#[unsafe(no_mangle)]
pub extern "C" fn huwekapo_copy(
    blocks: usize,
    width: usize,
    a: &[u8],
    b: &[u8],
    counts: &[u8],
    cells: &[Ref],
    roots: &[Ref],
    waiting: &[Ref],
    sections: &[Ref],
    d: &[u8],
    marks: &[u8],
    list: &[Ref],
    blocks2: usize,
    width2: usize,
    a2: &mut [u8],
    b2: &mut [u8],
    counts2: &mut [u8],
    cells2: &mut [Ref],
    roots2: &mut [Ref],
    waiting2: &mut [Ref],
    sections2: &mut [Ref],
    d2: &mut [u8],
    marks2: &mut [u8],
    list2: &mut [Ref],
) -> Reply
    ensures { CopyPromise blocks width
        (before a.now b.now counts.now cells.now roots.now waiting.now sections.now d.now marks.now list.now) blocks2 width2
        (before a2.old b2.old counts2.old cells2.old roots2.old waiting2.old sections2.old d2.old marks2.old list2.old) result
        (after a.now b.now counts.now cells.now roots.now waiting.now sections.now d.now marks.now list.now)
        (after a2.new b2.new counts2.new cells2.new roots2.new waiting2.new sections2.new d2.new marks2.new list2.new) }
{
    public_copy::copy(
        blocks, width, a, b, counts, cells, roots, waiting, sections, d, marks, list, blocks2,
        width2, a2, b2, counts2, cells2, roots2, waiting2, sections2, d2, marks2, list2,
    )
}
