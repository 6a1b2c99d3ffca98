// The calls of one record, on an undamaged heap with a cleared waiting list.
ghost use Rattle.rules.specs.Lent.{before, after, lent};
ghost use Rattle.theory_memories.specs.Heaps.{Usable};
ghost use Rattle.history_plans.specs.Meaning.{meaning};
ghost use Rattle.history_turns.specs.Turns.{turn_of};
ghost use Rattle.history_turns.specs.Steps.{Acted};

use history_plans::Plan;
use history_turns::outcome;
use history_turns::outcome::Done;
use types::Ref;

// The calls that a plan asks for.
pub(crate) fn act(
    blocks: usize,
    width: usize,
    a: &mut [u8],
    b: &mut [u8],
    counts: &mut [u8],
    cells: &mut [Ref],
    roots: &mut [Ref],
    waiting: &mut [Ref],
    sections: &mut [Ref],
    d: &mut [u8],
    marks: &mut [u8],
    list: &mut [Ref],
    plan: Plan,
) -> Done
    requires { Usable blocks width (lent a.old b.old counts.old cells.old roots.old waiting.old sections.old d.old marks.old list.old) }
    ensures { Acted blocks (before a.old b.old counts.old cells.old roots.old waiting.old sections.old d.old marks.old list.old)
        (turn_of blocks width
        (before a.old b.old counts.old cells.old roots.old waiting.old sections.old d.old marks.old list.old) (meaning plan)) result
        (after a.new b.new counts.new cells.new roots.new waiting.new sections.new d.new marks.new list.new) }
{
    match plan {
        Plan::Stop(number) => Done {
            number,
            allocated: 0,
            collected: false,
            freed: 0,
            stuck: false,
        },
        Plan::Allocate { as_data, n, r } => history_retries::allocate(
            blocks, width, a, b, counts, cells, roots, waiting, sections, d, marks, list, as_data,
            n, r,
        ),
        Plan::StoreRoot { r, v } => work_tested::store_root(
            blocks, width, a, b, counts, cells, roots, waiting, sections, d, marks, list, r, v,
        )
        .into(),
        Plan::StoreCell { at, j, v } => work_tested::store_cell(
            blocks, width, a, b, counts, cells, roots, waiting, sections, d, marks, list, at, j, v,
        )
        .into(),
        Plan::Collect => outcome::done_by_collection(work_tested::collect(
            blocks, width, a, b, counts, cells, roots, waiting, sections, d, marks, list,
        )),
        Plan::WriteNumber { at, j, x } => work_tested::write_number(
            blocks, width, a, b, counts, cells, roots, waiting, sections, d, marks, list, at, j, x,
        )
        .into(),
    }
}
