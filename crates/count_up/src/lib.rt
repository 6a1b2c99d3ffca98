// A count up. `specs` has besides what every crate that counts asks of the lent lists.

#![tactic(auto)]

ghost use Rattle.std.specs.Prelude.{◌≡◌, ◌≤◌};
ghost use Rattle.rules_stores.specs.Store.{count_up, sticks};
ghost use Rattle.count_up.specs.Ready.{Planes};

use map_objects::names::named_block;
use types::Ref;

// Counts up the object that v names, if any. Whether this very step brought its count to the capacity.
pub fn count_up(blocks: usize, width: usize, counts: &mut [u8], v: Ref) -> bool
    requires { Planes blocks width counts.old × (v ≤ blocks) }
    ensures { (counts.new ≡ count_up blocks width counts.old v)
        × (result ≡ sticks blocks width counts.old v) }
{
    let Some(block) = named_block(blocks, v) else {
        return false;
    };
    let count = planes::get_count(counts, blocks / 8, width, block);
    let most = types::capacity_of(width);
    if count == most {
        return false; // it is stuck already
    }
    planes::set_count(counts, blocks / 8, width, block, count + 1);
    count + 1 == most
}
