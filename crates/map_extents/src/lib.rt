// The extent of one object, written and cleared: its A bits, its last B bit, its cells.

#![tactic(auto)]

ghost use Rattle.std.specs.Prelude.{◌≡◌, not, ◌+◌, ◌-◌, ◌*◌, ◌^◌, ◌<◌, ◌≤◌, length};
ghost use Rattle.bitmap.specs.Bit.{one, set_bit, fill_bits};
ghost use Rattle.rules_stores.specs.Store.{clear_cells};

use types::Ref;

// The n blocks from block i on become an object's, or free: their A bits say whether they are used, and the last
// one's B bit is 0 where an object ends.
pub fn write_extent(a: &mut [u8], b: &mut [u8], i: usize, n: usize, used: bool)
    requires { (1 ≤ n) × (i + n ≤ 8 * length a.old) × (i + n ≤ 8 * length b.old) × (8 * length a.old < 2 ^ 64) }
    ensures { (a.new ≡ fill_bits a.old i n (one used)) × (b.new ≡ set_bit b.old (i + n - 1) (one (not used))) }
{
    bitmap::fill_bits(a, i, n, used as u8);
    bitmap::set_bit(b, i + n - 1, !used as u8);
}

// The n cells from cell j on become 0.
pub fn clear_cells(cells: &mut [Ref], j: usize, n: usize)
    requires { j + n ≤ length cells.old }
    ensures { cells.new ≡ clear_cells cells.old j n }
{
    cells[j..j + n].fill(0);
}
