// Steps of a collection (request U8) on an undamaged heap with a cleared waiting list: the whole act, the
// close included.

#![tactic(auto)]

ghost use Rattle.std.specs.Prelude.{◌≡◌, true};
ghost use Rattle.rules.specs.Lent.{before, after, lent};
ghost use Rattle.rules_calls.specs.Calls.{Call};
ghost use Rattle.rules_calls.specs.Promise.{Promise};
ghost use Rattle.rules_steps.specs.Steps.{is_open};
ghost use Rattle.theory_memories.specs.Heaps.{Usable};

use types::{Ref, Reply};

// Acceptance of steps: how many were taken, and the blocks freed.
fn stepped(steps: usize, freed: usize) -> Reply
    ensures { result ≡ record { number = 0; value = steps; second = freed } }
{
    Reply {
        number: 0,
        value: steps,
        second: freed,
    }
}

// At most `budget` steps; where the list has run out then, and the budget was not 0, the collection closes.
pub fn take_steps(
    blocks: usize,
    width: usize,
    a: &mut [u8],
    b: &mut [u8],
    counts: &mut [u8],
    cells: &mut [Ref],
    roots: &[Ref],
    waiting: &mut [Ref],
    sections: &mut [Ref],
    d: &mut [u8],
    marks: &mut [u8],
    list: &mut [Ref],
    budget: usize,
) -> Reply
    requires { Usable blocks width (lent a.old b.old counts.old cells.old roots.now waiting.old sections.old d.old marks.old list.old)
        × (is_open blocks (lent a.old b.old counts.old cells.old roots.now waiting.old sections.old d.old marks.old list.old) ≡ true) }
    ensures { Promise blocks width (Call.take_steps budget)
        (before a.old b.old counts.old cells.old roots.now waiting.old sections.old d.old marks.old list.old) result
        (after a.new b.new counts.new cells.new roots.now waiting.new sections.new d.new marks.new list.new) }
{
    let moves = step_advance::advance(blocks, b, d, cells, marks, list, budget);
    if !moves.done {
        return stepped(moves.steps, 0);
    }
    let freed = step_close::close(
        blocks, width, a, b, counts, cells, waiting, sections, d, marks,
    );
    bitmap::fill_bytes(marks, 0);
    map_objects::lists::clear_all(list);
    section_figures::renew(blocks, a, sections);
    stepped(moves.steps, freed)
}
