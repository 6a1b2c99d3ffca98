// Letting go in a store: while a collection in small steps is open, what the store touches and what freed cells named is marked and
// listed, and what is freed leaves map and list.

#![tactic(auto)]

ghost use Rattle.std.specs.Prelude.{[]};
ghost use Rattle.rules.specs.Heap.{lent_memory};
ghost use Rattle.count_up.specs.Ready.{Ready};
ghost use Rattle.step_release.specs.Left.{Listable, LetGo};

use types::{MAX_BLOCKS, Ref};

// Lets go of the reference `old`, if it is one, with all that this frees, in a store of `new` in a cell of the object that `owner`
// names (0: in a root). The number of blocks freed.
// Not inlined: its map is on the stack only while it runs.
#[inline(never)]
pub fn let_go(
    blocks: usize,
    width: usize,
    a: &mut [u8],
    b: &mut [u8],
    counts: &mut [u8],
    cells: &mut [Ref],
    waiting: &mut [Ref],
    sections: &mut [Ref],
    d: &mut [u8],
    marks: &mut [u8],
    list: &mut [Ref],
    owner: Ref,
    old: Ref,
    new: Ref,
) -> usize
    requires { Ready blocks width
        (lent_memory a.old b.old counts.old cells.old [] waiting.old sections.old d.old marks.old list.old)
        × Listable blocks
        (lent_memory a.old b.old counts.old cells.old [] waiting.old sections.old d.old marks.old list.old) }
    ensures { LetGo blocks width
        (lent_memory a.old b.old counts.old cells.old [] waiting.old
        sections.old d.old marks.old list.old)
        owner old new
        (lent_memory a.new b.new counts.new cells.new [] waiting.new
        sections.new d.new marks.new list.new)
        result }
{
    // Returns here, so that no map is cleared where no collection is open.
    if list[blocks] != 1 {
        return release::let_go(
            blocks, width, a, b, counts, cells, waiting, sections, d, marks, old, false,
        );
    }
    let mut was = [0u8; MAX_BLOCKS / 8];
    step_list::copy_map(marks, &mut was);
    step_marks::mark_touched(blocks, marks, owner, old, new);
    let freed = release::let_go(
        blocks, width, a, b, counts, cells, waiting, sections, d, marks, old, true,
    );
    step_list::relist(blocks, &was, marks, list);
    freed
}
