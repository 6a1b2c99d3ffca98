// First blocks, sizes and references, read off the A-map and the B-map, and the kind of an object off the D-map.
ghost use Rattle.std.specs.Prelude.{◌≡◌, not, ℕ, ◌+◌, ◌-◌, ◌*◌, ◌<◌, ◌≤◌, eqb, length};
ghost use Rattle.bitmap.specs.Bit.{bit_of};
ghost use Rattle.rules.specs.Heap.{first_in, size_from, ref_in, max_blocks};
ghost use Rattle.rules_stores.specs.Store.{naming_cells};

// Whether block i, which may be any number, is a first block.
#[tactic(auto, unfolding(rules::specs::Heap::first_in))]
pub fn is_first(blocks: usize, a: &[u8], b: &[u8], i: usize) -> bool
    requires { (blocks ≤ 8 * length a.now) × (blocks ≤ 8 * length b.now) }
    ensures { result ≡ first_in blocks a.now b.now i }
{
    i < blocks
        && bitmap::get_bit(a, i) != 0
        && (i == 0 || bitmap::get_bit(a, i - 1) == 0 || bitmap::get_bit(b, i - 1) == 0)
}

// The first blocks among the eight of byte k, as the bits of a byte.
pub fn first_byte(a: &[u8], b: &[u8], k: usize) -> u8
    requires { (k < length a.now) × (k < length b.now) }
    ensures { (N : ℕ) → 8 * (k + 1) ≤ N → (s : ℕ) → s < 8
        → first_in N a.now b.now (8 * k + s) ≡ not (eqb (bit_of result s) 0) }
{
    let own = (a[k] & b[k]) << 1;
    if k == 0 {
        a[k] & !own
    } else {
        let into = own | ((a[k - 1] & b[k - 1]) >> 7);
        a[k] & !into
    }
}

// The number of blocks from block i to the first 0 of the B-map, or to the heap's end: a byte at a time, whose 0 is found
// by the count of trailing zeros of what is not in it.
pub fn object_size(blocks: usize, b: &[u8], i: usize) -> usize
    requires { (blocks ≤ 8 * length b.now) × (i < blocks) }
    ensures { (result ≡ size_from (blocks - i) b.now i) × (1 ≤ result) × (i + result ≤ blocks) }
{
    let mut at = i;
    // A turn goes on to the next byte, from wherever in its own it began: no `for` steps so.
    while at < blocks {
        let rest = !b[at / 8] >> (at % 8);
        if rest != 0 {
            let last = at + rest.trailing_zeros() as usize;
            return last.min(blocks - 1) + 1 - i;
        }
        at += (8 - at % 8).min(blocks - at);
    }
    blocks - i
}

// Whether v, which may be any number, is 0 or 1 + a first block.
#[tactic(auto, unfolding(rules::specs::Heap::ref_in))]
pub fn is_reference(blocks: usize, a: &[u8], b: &[u8], v: usize) -> bool
    requires { (blocks ≤ 8 * length a.now) × (blocks ≤ 8 * length b.now) }
    ensures { result ≡ ref_in blocks a.now b.now v }
{
    v == 0 || is_first(blocks, a, b, v - 1)
}

// How many cells of the object of n blocks at block i may name others: of data none.
#[tactic(auto, unfolding(rules_stores::specs::Store::naming_cells))]
pub fn naming_cells(d: &[u8], i: usize, n: usize) -> usize
    requires { (i < 8 * length d.now) × (n ≤ max_blocks) }
    ensures { (result ≡ naming_cells d.now i n) × (result ≤ 4 * n) }
{
    if bitmap::get_bit(d, i) == 1 { 0 } else { 4 * n }
}
