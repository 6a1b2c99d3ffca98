// Bitmaps in lent byte slices: one bit read or written, a run written, the zeros counted.

#![tactic(auto)]

ghost use Rattle.std.specs.Prelude.{◌≡◌, ◌+◌, ◌*◌, ◌^◌, ◌<◌, ◌≤◌, min, length, replicate};
ghost use Rattle.bitmap.specs.Bit.{bit_at, set_bit, fill_bits, zeros};
ghost use Rattle.bitmap.specs.Byte.{put_run};

// Bit i of the map.
pub fn get_bit(map: &[u8], i: usize) -> u8
    requires { i < 8 * length map.now }
    ensures { (result ≡ bit_at map.now i) × (result < 2) }
{
    (map[i / 8] >> (i % 8)) % 2
}

// Writes v, 0 or 1, to bit i of the map.
pub fn set_bit(map: &mut [u8], i: usize, v: u8)
    requires { (i < 8 * length map.old) × (v < 2) }
    ensures { map.new ≡ set_bit map.old i v }
{
    map[i / 8] = fill_byte(map[i / 8], i % 8, 1, v);
}

// The byte with its `count` bits from bit `from` on replaced by v, 0 or 1.
fn fill_byte(byte: u8, from: usize, count: usize, v: u8) -> u8
    requires { (1 ≤ count) × (from + count ≤ 8) × (v < 2) }
    ensures { result ≡ put_run byte from count v }
{
    let mask = (255u8 >> (8 - count)) << from;
    (byte & !mask) | (mask * v)
}

// Writes v, 0 or 1, to the `count` bits from bit `from` on: byte by byte, the first and the last by a mask.
pub fn fill_bits(map: &mut [u8], from: usize, count: usize, v: u8)
    requires { (from + count ≤ 8 * length map.old) × (v < 2) × (8 * length map.old < 2 ^ 64) }
    ensures { map.new ≡ fill_bits map.old from count v }
{
    let mut i = 0;
    // A turn goes on by what it wrote of a byte, up to 8 bits: no `for` steps so.
    while i < count {
        let at = from + i;
        let n = (8 - at % 8).min(count - i);
        map[at / 8] = fill_byte(map[at / 8], at % 8, n, v);
        i += n;
    }
}

// Writes v to every byte of the map.
pub fn fill_bytes(map: &mut [u8], v: u8)
    ensures { map.new ≡ replicate (length map.old) v }
{
    map.fill(v);
}

// The number of 0 bits of the map.
pub fn count_zeros(map: &[u8]) -> usize
    requires { 8 * length map.now < 2 ^ 64 }
    ensures { (result ≡ zeros map.now) × (result ≤ 8 * length map.now) }
{
    map.iter().map(|byte| byte.count_zeros() as usize).sum()
}
