// One call of the list, on an undamaged heap.

#![tactic(auto)]

ghost use Rattle.rules.specs.Lent.{before, after, lent};
ghost use Rattle.theory_memories.specs.Heaps.{Usable};
ghost use Rattle.replay_call.specs.Dispatched.{Dispatched};

use test_arguments::{collecting, looking, numbers};
use types::{MAX_NUMBER, Ref, Refusal, Reply, replies};

// The call that the four words stand for. All else is answered 9.
pub fn step(
    blocks: usize,
    width: usize,
    a: &mut [u8],
    b: &mut [u8],
    counts: &mut [u8],
    cells: &mut [Ref],
    roots: &mut [Ref],
    waiting: &mut [Ref],
    sections: &mut [Ref],
    d: &mut [u8],
    marks: &mut [u8],
    list: &mut [Ref],
    code: u64,
    x: u64,
    y: u64,
    z: u64,
) -> Reply
    requires { Usable blocks width (lent a.old b.old counts.old cells.old roots.old waiting.old sections.old d.old marks.old list.old) }
    ensures { Dispatched blocks width code x y z
        (before a.old b.old counts.old cells.old roots.old waiting.old sections.old d.old marks.old list.old) result
        (after a.new b.new counts.new cells.new roots.new waiting.new sections.new d.new marks.new list.new) }
{
    match code {
        0 => work_format::format(
            blocks, width, a, b, counts, cells, roots, waiting, sections, d, marks, list,
        ),
        1 => replies::acceptance(0),
        2 => work_tested::allocate(
            blocks, width, a, b, counts, cells, roots, waiting, sections, d, marks, list, false,
            x as usize, y as usize,
        )
        .into(),
        3 => work_tested::store_root(
            blocks, width, a, b, counts, cells, roots, waiting, sections, d, marks, list,
            x as usize, y as usize,
        )
        .into(),
        4 => work_tested::store_cell(
            blocks, width, a, b, counts, cells, roots, waiting, sections, d, marks, list,
            x as usize, y as usize, z as usize,
        )
        .into(),
        5 => work_tested::collect(
            blocks, width, a, b, counts, cells, roots, waiting, sections, d, marks, list,
        )
        .into(),
        6 => looking::look_reply(blocks, width, a, b, counts, x as usize),
        7 => replies::acceptance(bitmap::count_zeros(a)),
        8 => work_return::return_roots(
            blocks, width, a, b, counts, cells, roots, waiting, sections, d, marks, list, x,
        )
        .into(),
        9 => work_tested::allocate(
            blocks, width, a, b, counts, cells, roots, waiting, sections, d, marks, list, true,
            x as usize, y as usize,
        )
        .into(),
        10 => {
            if (MAX_NUMBER as u64) < z {
                return Refusal::NoCall.into();
            }
            work_tested::write_number(
                blocks, width, a, b, counts, cells, roots, waiting, sections, d, marks, list,
                x as usize, y as usize, z as Ref,
            )
            .into()
        }
        11 => numbers::read_reply(blocks, a, b, cells, d, x as usize, y as usize).into(),
        12 => {
            if let Err(refusal) = collecting::shut_test(blocks, list) {
                return refusal.into();
            }
            work_open::open_collection(blocks, roots, marks, list)
        }
        13 => {
            if let Err(refusal) = collecting::open_test(blocks, list) {
                return refusal.into();
            }
            work_step::take_steps(
                blocks, width, a, b, counts, cells, roots, waiting, sections, d, marks, list,
                x as usize,
            )
        }
        _ => Refusal::NoCall.into(),
    }
}
