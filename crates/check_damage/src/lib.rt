// Number 2: the first damage kind that applies.

#![tactic(auto)]

ghost use Rattle.std.specs.Prelude.{◌≡◌, true, List, ℕ};
ghost use Rattle.types.specs.Told.{damage_kind};
ghost use Rattle.rules.specs.Heap.{shaped, lent_memory};
ghost use Rattle.rules.specs.Damage.{damage};

use types::{Damage, Ref};

// The damage of a heap of right shape, if there is any. Each kind is tested over the whole heap before the next. No kind reads the waiting list,
// the sections, the marks or the second list: the answer is the same whatever they hold.
pub fn damage_kind(
    blocks: usize,
    width: usize,
    a: &[u8],
    b: &[u8],
    counts: &[u8],
    cells: &[Ref],
    roots: &[Ref],
    d: &[u8],
) -> Option<Damage>
    requires { (waiting : List ℕ) × (sections : List ℕ) × (marks : List ℕ) × (list : List ℕ)
        × (shaped blocks width
        (lent_memory a.now b.now counts.now cells.now roots.now waiting sections d.now marks list) ≡ true) }
    ensures { (waiting sections marks list : List ℕ)
        → damage_kind result ≡ damage blocks width
        (lent_memory a.now b.now counts.now cells.now roots.now
        waiting sections d.now marks list) }
{
    if check_maps::has_end_on_free(blocks, a, b) {
        return Some(Damage::EndOnFree);
    }
    if check_maps::has_open_end(blocks, a, b) {
        return Some(Damage::OpenEnd);
    }
    if check_maps::has_unaligned(blocks, a, b) {
        return Some(Damage::Unaligned);
    }
    if let Some(damage) = check_counts::reference_kind(
        blocks, width, a, b, counts, cells, roots, d,
    ) {
        return Some(damage);
    }
    if check_maps::has_stray_data(blocks, a, b, d) {
        return Some(Damage::StrayData);
    }
    None
}
