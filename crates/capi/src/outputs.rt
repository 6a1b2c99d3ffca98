// The calls with an output for C, and the reader of a reason, under the names of include/huwekapo.h.
ghost use Rattle.std.specs.Prelude.{◌≡◌, length};
ghost use Rattle.rules.specs.Lent.{before, after};
ghost use Rattle.rules_calls.specs.Promise.{ReasonPromise, ShapePromise};
ghost use Rattle.walk_reader.specs.Reader.{small_back, reading_of, cells_after};

use types::{Ref, Reply};
use walk_reader::Reading;

#[unsafe(no_mangle)]
pub extern "C" fn huwekapo_reason(
    blocks: usize,
    width: usize,
    a: &[u8],
    b: &[u8],
    counts: &[u8],
    cells: &[Ref],
    roots: &[Ref],
    waiting: &[Ref],
    sections: &[Ref],
    d: &[u8],
    marks: &[u8],
    list: &[Ref],
    at: usize,
    out: &mut [u8],
) -> Reply
    ensures { ReasonPromise blocks width at
        (before a.now b.now counts.now cells.now roots.now waiting.now sections.now d.now marks.now list.now) out.old result
        (after a.now b.now counts.now cells.now roots.now waiting.now sections.now d.now marks.now list.now) out.new }
{
    public_output::reason(
        blocks, width, a, b, counts, cells, roots, waiting, sections, d, marks, list, at, out,
    )
}

#[unsafe(no_mangle)]
pub extern "C" fn huwekapo_shape(
    blocks: usize,
    width: usize,
    a: &[u8],
    b: &[u8],
    counts: &[u8],
    cells: &[Ref],
    roots: &[Ref],
    waiting: &[Ref],
    sections: &[Ref],
    d: &[u8],
    marks: &[u8],
    list: &[Ref],
    out: &mut [u32],
) -> Reply
    ensures { ShapePromise blocks width
        (before a.now b.now counts.now cells.now roots.now waiting.now sections.now d.now marks.now list.now) out.old result
        (after a.now b.now counts.now cells.now roots.now waiting.now sections.now d.now marks.now list.now) out.new }
{
    public_output::shape(
        blocks, width, a, b, counts, cells, roots, waiting, sections, d, marks, list, out,
    )
}

#[unsafe(no_mangle)]
pub extern "C" fn huwekapo_read_reason(text: &[u8], cells: &mut [u32]) -> Reading
    ensures { (result ≡ reading_of (length cells.old) (small_back text.now))
        × (cells.new ≡ cells_after (small_back text.now) cells.old) }
{
    walk_reader::read_reason(text, cells)
}
