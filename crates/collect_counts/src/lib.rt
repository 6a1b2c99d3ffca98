// Counts while marking: a byte for each block, in a list of their own. The count maps are written once, from these bytes.

#![tactic(auto)]

ghost use Rattle.std.specs.Prelude.{◌≡◌, ℕ, ◌+◌, ◌*◌, ◌<◌, ◌≤◌, length};
ghost use Rattle.bitmap.specs.Bit.{bit_of};
ghost use Rattle.rules.specs.Heap.{max_blocks};
ghost use Rattle.count_up.specs.Ready.{Planes};
ghost use Rattle.collect_counts.specs.Counts.{Counting, count_maps, MapWritten};

// A 1 in each of eight bytes.
const EIGHTS: u64 = 0x0101_0101_0101_0101;

// Bit p of each of the eight bytes of x, as the bits of a byte: that of byte s moves down by 7 s places.
fn gather(x: u64, p: usize) -> u8
    requires { p < 8 }
    ensures { (s : ℕ) → s < 8 → bit_of result s ≡ bit_of x (p + 8 * s) }
{
    let ones = (x >> p) & EIGHTS;
    let twos = ones | (ones >> 7);
    let fours = twos | (twos >> 14);
    let eight = fours | (fours >> 28);
    (eight % 256) as u8
}

// Writes map p of the counts in `at`.
fn write_map(map: &mut [u8], at: &[u8], p: usize)
    requires { (8 * length map.old ≤ length at.now) × (8 * length map.old ≤ max_blocks) × (p < 8) }
    ensures { MapWritten at.now p (length map.new) map.new }
{
    for (k, byte) in map.iter_mut().enumerate() {
        *byte = gather(section_words::eight_bytes(at, 8 * k), p);
    }
}

// Writes the count maps of the counts in `at`.
pub fn write_counts(blocks: usize, width: usize, counts: &mut [u8], at: &[u8])
    requires { Planes blocks width counts.old × Counting blocks width at.now }
    ensures { counts.new ≡ count_maps blocks width at.now }
{
    let bytes = blocks / 8;
    for p in 0..width {
        write_map(&mut counts[p * bytes..(p + 1) * bytes], at, p);
    }
}
