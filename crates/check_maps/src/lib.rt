// Damage kinds 1, 2, 3 and 7: what the maps say against each other.

#![tactic(auto)]

ghost use Rattle.std.specs.Prelude.{◌≡◌, not, ◌||◌, [], ◌+◌, ◌-◌, ◌*◌, ◌/◌, ◌%◌, ◌^◌, ◌≤◌, ◌<◌, eqb, leb, length};
ghost use Rattle.rules.specs.Heap.{memory, lent_memory, max_blocks, is_free, exponent, size_from};
ghost use Rattle.rules.specs.Tools.{some_below};
ghost use Rattle.rules.specs.Damage.{end_on_free, open_end, unaligned, stray_data};
ghost use Rattle.check_maps.specs.Chunks.{off_chunk};

use map_objects::objects;

// Kind 1 among the blocks of the first `bytes` bytes, eight at a time.
fn end_on_free_in(bytes: usize, a: &[u8], b: &[u8]) -> bool
    requires { (bytes ≤ length a.now) × (bytes ≤ length b.now) }
    ensures { result ≡ some_below (end_on_free (memory a.now b.now [] [] [] [])) (8 * bytes) }
{
    let mut found: u8 = 0;
    for (x, y) in a[..bytes].iter().zip(&b[..bytes]) {
        found |= !(x | y);
    }
    found != 0
}

// Kind 1: a 0 in the B-map on a free block. By bytes, then what is left of the blocks one by one.
pub fn has_end_on_free(blocks: usize, a: &[u8], b: &[u8]) -> bool
    requires { (blocks ≤ 8 * length a.now) × (blocks ≤ 8 * length b.now) }
    ensures { result ≡ some_below (end_on_free (memory a.now b.now [] [] [] [])) blocks }
{
    let bytes = blocks / 8;
    end_on_free_in(bytes, a, b)
        || (8 * bytes..blocks).any(|i| bitmap::get_bit(a, i) == 0 && bitmap::get_bit(b, i) == 0)
}

// Whether block i is free or past the end.
fn is_free_or_past(blocks: usize, a: &[u8], i: usize) -> bool
    requires { blocks ≤ 8 * length a.now }
    ensures { result ≡ (leb blocks i || is_free a.now i) }
{
    blocks <= i || bitmap::get_bit(a, i) == 0
}

// Kind 2 among the blocks of the first `bytes` bytes, eight at a time: each byte is held to itself and the next.
fn open_end_in(blocks: usize, bytes: usize, a: &[u8], b: &[u8]) -> bool
    requires { (blocks ≤ 8 * length a.now) × (blocks ≤ 8 * length b.now) × (bytes ≡ blocks / 8 - 1) }
    ensures { result ≡ some_below (open_end blocks (memory a.now b.now [] [] [] [])) (8 * bytes) }
{
    let mut found: u8 = 0;
    for k in 0..bytes {
        let next = (a[k] >> 1) | (a[k + 1] << 7);
        found |= a[k] & b[k] & !next;
    }
    found != 0
}

// Kind 2: an allocated block with B bit 1 whose next block is free or past the end. By bytes, then the last blocks one by one.
pub fn has_open_end(blocks: usize, a: &[u8], b: &[u8]) -> bool
    requires { (blocks ≤ 8 * length a.now) × (blocks ≤ 8 * length b.now) }
    ensures { result ≡ some_below (open_end blocks (memory a.now b.now [] [] [] [])) blocks }
{
    let bytes = (blocks / 8).saturating_sub(1);
    open_end_in(blocks, bytes, a, b)
        || (8 * bytes..blocks).any(|i| {
            bitmap::get_bit(a, i) != 0
                && bitmap::get_bit(b, i) != 0
                && is_free_or_past(blocks, a, i + 1)
        })
}

// Whether what starts at block i is not aligned.
fn is_unaligned(blocks: usize, b: &[u8], i: usize) -> bool
    requires { (blocks ≤ 8 * length b.now) × (blocks ≤ max_blocks) × (i < blocks) }
    ensures { result ≡ not (eqb (i % 2 ^ exponent (size_from (blocks - i) b.now i)) 0) }
{
    let size = objects::object_size(blocks, b, i);
    i % search_size::chunk_size(size) != 0
}

// Whether one of the objects that start at the blocks of byte k which are the bits of `these` is not aligned.
fn has_unaligned_of(blocks: usize, b: &[u8], k: usize, these: u8) -> bool
    requires { (blocks ≤ 8 * length b.now) × (8 * (k + 1) ≤ blocks) × (blocks ≤ max_blocks) }
    ensures { result ≡ some_below (off_chunk these k blocks b.now) 8 }
{
    let mut left = these;
    while left != 0 {
        if is_unaligned(blocks, b, 8 * k + left.trailing_zeros() as usize) {
            return true;
        }
        left &= left - 1;
    }
    false
}

// Whether one of the objects that start in byte k is not aligned. Two blocks from an odd block on, and three from block 2 on, are not.
// Of those that leave the byte, or have more than four blocks, the size is found; the others are aligned.
fn has_unaligned_byte(blocks: usize, a: &[u8], b: &[u8], k: usize) -> bool
    requires { (blocks ≤ 8 * length a.now) × (blocks ≤ 8 * length b.now) × (8 * (k + 1) ≤ blocks) × (blocks ≤ max_blocks) }
    ensures { result ≡ some_below (λ s. unaligned blocks (memory a.now b.now [] [] [] []) (8 * k + s)) 8 }
{
    let first = objects::first_byte(a, b, k);
    let two = first & b[k];
    let three = two & (b[k] >> 1);
    if (two & 42) | (three & 4) != 0 {
        return true;
    }
    let five = three & (b[k] >> 2) & (b[k] >> 3);
    has_unaligned_of(blocks, b, k, five | (three & 64) | (two & 128))
}

// Kind 3 among the blocks of the first `bytes` bytes.
fn has_unaligned_in(blocks: usize, bytes: usize, a: &[u8], b: &[u8]) -> bool
    requires { (blocks ≤ 8 * length a.now) × (blocks ≤ 8 * length b.now) × (blocks ≤ max_blocks) × (8 * bytes ≤ blocks) }
    ensures { result ≡ some_below (unaligned blocks (memory a.now b.now [] [] [] [])) (8 * bytes) }
{
    (0..bytes).any(|k| has_unaligned_byte(blocks, a, b, k))
}

// Kind 3: an object that is not aligned. Each object is measured once, at its first block. By bytes, then what is left of the blocks one by
// one.
pub fn has_unaligned(blocks: usize, a: &[u8], b: &[u8]) -> bool
    requires { (blocks ≤ 8 * length a.now) × (blocks ≤ 8 * length b.now) × (blocks ≤ max_blocks) }
    ensures { result ≡ some_below (unaligned blocks (memory a.now b.now [] [] [] [])) blocks }
{
    let bytes = blocks / 8;
    has_unaligned_in(blocks, bytes, a, b)
        || (8 * bytes..blocks).any(|i| {
            objects::is_first(blocks, a, b, i) && is_unaligned(blocks, b, i)
        })
}

// Kind 7 (request U6): a D bit where no object starts. Eight blocks at a time.
pub fn has_stray_data(blocks: usize, a: &[u8], b: &[u8], d: &[u8]) -> bool
    requires { (blocks ≤ 8 * length a.now) × (blocks ≤ 8 * length b.now) × (blocks ≤ 8 * length d.now)
        × (blocks ≡ 8 * (blocks / 8)) }
    ensures { result ≡ some_below
        (stray_data blocks (lent_memory a.now b.now [] [] [] [] [] d.now [] [])) blocks }
{
    let mut found: u8 = 0;
    for k in 0..blocks / 8 {
        found |= d[k] & !objects::first_byte(a, b, k);
    }
    found != 0
}
