// Public calls made one after another on the same buffers, with demand 3's claim as the contract: an example for callers of what the promises
// of single calls come to.

#![tactic(auto)]

ghost use Rattle.rules.specs.Lent.{before, after};
ghost use Rattle.public_example.specs.Session.{Lived};

use types::{Ref, Reply};

pub mod mixed;

// Formats the heap, allocates one block into root 0, opens a collection, clears that root and takes a step, which closes the collection. The
// reply is format's; where it refuses, no other call is made.
pub fn one_life(
    blocks: usize,
    width: usize,
    a: &mut [u8],
    b: &mut [u8],
    counts: &mut [u8],
    cells: &mut [Ref],
    roots: &mut [Ref],
    waiting: &mut [Ref],
    sections: &mut [Ref],
    d: &mut [u8],
    marks: &mut [u8],
    list: &mut [Ref],
) -> Reply
    ensures { Lived blocks width (before a.old b.old counts.old cells.old roots.old waiting.old sections.old d.old marks.old list.old) result
        (after a.new b.new counts.new cells.new roots.new waiting.new sections.new d.new marks.new list.new) }
{
    let formatting = public_heap::format(
        blocks, width, a, b, counts, cells, roots, waiting, sections, d, marks, list,
    );
    let number = formatting.number;
    if number != 0 {
        return formatting;
    }
    public_heap::allocate(
        blocks, width, a, b, counts, cells, roots, waiting, sections, d, marks, list, 1, 0,
    );
    public_steps::open_collection(
        blocks, width, a, b, counts, cells, roots, waiting, sections, d, marks, list,
    );
    public_store::store_root(
        blocks, width, a, b, counts, cells, roots, waiting, sections, d, marks, list, 0, 0,
    );
    public_steps::step_collection(
        blocks, width, a, b, counts, cells, roots, waiting, sections, d, marks, list, 1,
    );
    formatting
}
