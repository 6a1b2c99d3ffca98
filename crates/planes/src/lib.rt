// Counts of `width` bits for each block, in `width` maps of `bytes` bytes that lie one after another in one lent buffer.
// Each map is lent on as a middle part of that buffer.

#![tactic(auto)]

ghost use Rattle.std.specs.Prelude.{◌≡◌, ℕ, ◌+◌, ◌-◌, ◌*◌, ◌^◌, ◌<◌, ◌≤◌, eqb, length};
ghost use Rattle.bitmap.specs.Bit.{bit_of};
ghost use Rattle.planes.specs.Plane.{count_at, set_count};

// The count of a block.
pub fn get_count(counts: &[u8], bytes: usize, width: usize, block: usize) -> u8
    requires { (length counts.now ≡ width * bytes) × (width ≤ 8) × (block < 8 * bytes) }
    ensures { (result ≡ count_at bytes width counts.now block) × (result < 2 ^ width) }
{
    let mut count = 0;
    for k in 0..width {
        let map = &counts[k * bytes..(k + 1) * bytes];
        count += bitmap::get_bit(map, block) << k;
    }
    count
}

// The blocks among the eight of byte k whose count is not 0, as the bits of a byte.
pub fn some_byte(counts: &[u8], bytes: usize, width: usize, k: usize) -> u8
    requires { (length counts.now ≡ width * bytes) × (k < bytes) }
    ensures { (s : ℕ) → s < 8 → eqb (bit_of result s) 0 ≡ eqb (count_at bytes width counts.now (8 * k + s)) 0 }
{
    let mut some = 0;
    // A fold over 0..width took 6 % longer on counts of three bits.
    for p in 0..width {
        some |= counts[p * bytes + k];
    }
    some
}

// The blocks among the eight of byte k whose count has every bit 1, as the bits of a byte. Two short loops are plainer
// than one that takes the operation and its start.
pub fn full_byte(counts: &[u8], bytes: usize, width: usize, k: usize) -> u8
    requires { (length counts.now ≡ width * bytes) × (k < bytes) }
    ensures { (s : ℕ) → s < 8
        → eqb (bit_of result s) 1 ≡ eqb (count_at bytes width counts.now (8 * k + s)) (2 ^ width - 1) }
{
    let mut full = 255;
    for p in 0..width {
        full &= counts[p * bytes + k];
    }
    full
}

// Writes the count of a block.
pub fn set_count(counts: &mut [u8], bytes: usize, width: usize, block: usize, value: u8)
    requires { (length counts.old ≡ width * bytes) × (width ≤ 8) × (block < 8 * bytes) }
    ensures { counts.new ≡ set_count bytes width counts.old block value }
{
    for k in 0..width {
        let map = &mut counts[k * bytes..(k + 1) * bytes];
        bitmap::set_bit(map, block, (value >> k) % 2);
    }
}
