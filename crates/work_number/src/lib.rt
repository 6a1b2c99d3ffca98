// The write of a number into a cell of data (request U6): the whole work of the call, once its test is passed. It is lent the cells alone.

#![tactic(auto)]

ghost use Rattle.std.specs.Prelude.{Ok, ◌+◌, ◌*◌, ◌<◌, ◌≤◌, length};
ghost use Rattle.rules.specs.Heap.{max_blocks};
ghost use Rattle.types.specs.Told.{came_of};
ghost use Rattle.work_number.specs.Written.{Written};

use types::{Outcome, Ref};

// Writes x into cell j of the data at block `at`. Any number that a cell holds is right, and nothing else is touched.
#[tactic(auto, using(crate::proofs::NumberAnswer::number_written))]
pub fn write_number(cells: &mut [Ref], at: usize, j: usize, x: Ref) -> Outcome
    requires { (4 * at + j < length cells.old) × (length cells.old ≤ 4 * max_blocks) }
    ensures { Written cells.old at j x (came_of (Ok result)) cells.new }
{
    cells[4 * at + j] = x;
    Outcome {
        value: 0,
        freed: 0,
        stuck: false,
    }
}
