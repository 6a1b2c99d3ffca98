// The writing of an empty heap over whatever the buffers held: what format does once its shape is tested, and what a run of calls starts from.

#![tactic(auto)]

ghost use Rattle.std.specs.Prelude.{◌≡◌, true};
ghost use Rattle.rules.specs.Heap.{shaped};
ghost use Rattle.rules.specs.Lent.{before, after, lent};
ghost use Rattle.rules_calls.specs.Calls.{Call};
ghost use Rattle.rules_calls.specs.Promise.{Promise};

use map_objects::lists;
use types::{Ref, Reply, replies};

// Makes an empty heap of buffers of the right shape.
pub fn format(
    blocks: usize,
    width: usize,
    a: &mut [u8],
    b: &mut [u8],
    counts: &mut [u8],
    cells: &mut [Ref],
    roots: &mut [Ref],
    waiting: &mut [Ref],
    sections: &mut [Ref],
    d: &mut [u8],
    marks: &mut [u8],
    list: &mut [Ref],
) -> Reply
    requires { shaped blocks width (lent a.old b.old counts.old cells.old roots.old waiting.old sections.old d.old marks.old list.old) ≡ true }
    ensures { Promise blocks width Call.format
        (before a.old b.old counts.old cells.old roots.old waiting.old sections.old d.old marks.old list.old) result
        (after a.new b.new counts.new cells.new roots.new waiting.new sections.new d.new marks.new list.new) }
{
    bitmap::fill_bytes(a, 0);
    bitmap::fill_bytes(b, 255);
    bitmap::fill_bytes(counts, 0);
    lists::clear_all(cells);
    lists::clear_all(roots);
    lists::clear_all(waiting);
    section_figures::fill_free(blocks, sections);
    bitmap::fill_bytes(d, 0);
    bitmap::fill_bytes(marks, 0);
    lists::clear_all(list);
    replies::acceptance(0)
}
