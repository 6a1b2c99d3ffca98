// Blocks of data, whose cells hold numbers (request U6).
ghost use Rattle.std.specs.Prelude.{◌≡◌, ◌*◌, ◌<◌, ◌≤◌, length};
ghost use Rattle.rules.specs.Heap.{in_data};
ghost use Rattle.map_objects.specs.Walk.{data_before};

use crate::objects;

// Whether block i is a block of data, in a walk from block 0 upwards: `before` says it of the block before
// it.
#[tactic(auto, using(crate::proofs::Walk::walk_on))]
pub fn is_in_data(blocks: usize, a: &[u8], b: &[u8], d: &[u8], i: usize, before: bool) -> bool
    requires { (blocks ≤ 8 * length a.now) × (blocks ≤ 8 * length b.now) × (blocks ≤ 8 * length d.now) × (i < blocks)
        × (before ≡ data_before blocks a.now b.now d.now i) }
    ensures { result ≡ in_data blocks a.now b.now d.now i }
{
    let marked = bitmap::get_bit(d, i) == 1;
    if before {
        bitmap::get_bit(a, i) != 0 && (marked || !objects::is_first(blocks, a, b, i))
    } else {
        // After any other block only a first block can be one.
        marked && objects::is_first(blocks, a, b, i)
    }
}
