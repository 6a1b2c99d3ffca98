// The figure of 64 blocks, found in one word: block n of them is its bit n; and that of 256, in four.

#![tactic(auto)]

ghost use Rattle.std.specs.Prelude.{◌≡◌, true, false, ◌≢◌, List, ℕ, suc, ◌+◌, ◌*◌, ◌^◌, ◌<◌, ◌≤◌, length};
ghost use Rattle.rules.specs.Sections.{largest_free};
ghost use Rattle.section_words.specs.Words.{Digits, Starts, FreeChunks, FourChunks, NoneOfFour};

// A 1 at the first block of each chunk of 2, 4, 8, 16, 32 and 64 blocks.
const TWOS: u64 = 0x5555_5555_5555_5555;

const FOURS: u64 = 0x1111_1111_1111_1111;

const EIGHTS: u64 = 0x0101_0101_0101_0101;

const SIXTEENS: u64 = 0x0001_0001_0001_0001;

const HALVES: u64 = 0x0000_0001_0000_0001;

const WHOLE: u64 = 1;

// The sizes of the chunks that are halves of chunks within a word.
const SIZES: [usize; 6] = [1, 2, 4, 8, 16, 32];

// Eight bytes of a map as one number, the first of them in its lowest digits.
pub fn eight_bytes(a: &[u8], i: usize) -> u64
    requires { (i + 8 ≤ length a.now) × (i + 8 < 2 ^ 64) }
    ensures { Digits 64 a.now (8 * i) result }
{
    u64::from_le_bytes([
        a[i],
        a[i + 1],
        a[i + 2],
        a[i + 3],
        a[i + 4],
        a[i + 5],
        a[i + 6],
        a[i + 7],
    ])
}

// A 1 at the first block of each chunk of twice `size` blocks.
fn starts_of_twice(size: usize) -> u64
    ensures { (k : ℕ) → k < 6 → size ≡ 2 ^ k → Starts (suc k) result }
{
    match size {
        1 => TWOS,
        2 => FOURS,
        4 => EIGHTS,
        8 => SIXTEENS,
        16 => HALVES,
        _ => WHOLE,
    }
}

// From the free chunks of `size` blocks those of twice the size: both halves of such a chunk are free.
pub fn twice(free: u64, size: usize) -> u64
    requires { size < 64 }
    ensures { (k : ℕ) (a : List ℕ) (i : ℕ) → k < 6 → size ≡ 2 ^ k → FreeChunks k a i free → FreeChunks (suc k) a i result }
{
    free & (free >> size) & starts_of_twice(size)
}

// The largest free chunk of 64 blocks, of which those are used whose bit is 1.
pub fn figure(used: u64) -> usize
    ensures { (a : List ℕ) (i : ℕ) → Digits 64 a i used → result ≡ largest_free 6 a i }
{
    let mut chunks = !used;
    if chunks == 0 {
        return 0;
    }
    for size in SIZES {
        let larger = twice(chunks, size);
        if larger == 0 {
            return size;
        }
        chunks = larger;
    }
    64
}

// The free blocks of the 256 from byte i of the map on, 64 to a word.
pub fn free_of_four(a: &[u8], i: usize) -> [u64; 4]
    requires { (i + 32 ≤ length a.now) × (i + 32 < 2 ^ 64) }
    ensures { FourChunks 0 a.now (8 * i) result }
{
    [
        !eight_bytes(a, i),
        !eight_bytes(a, i + 8),
        !eight_bytes(a, i + 16),
        !eight_bytes(a, i + 24),
    ]
}

// From the free chunks of `size` blocks of four words those of twice the size. Written out: of a closure under
// `map` the proof doesn't learn what `twice` promises, unless the closure repeats it.
fn twice_each(free: [u64; 4], size: usize) -> [u64; 4]
    requires { size < 64 }
    ensures { (k : ℕ) (a : List ℕ) (i : ℕ) → k < 6 → size ≡ 2 ^ k
        → FourChunks k a i free → FourChunks (suc k) a i result }
{
    [
        twice(free[0], size),
        twice(free[1], size),
        twice(free[2], size),
        twice(free[3], size),
    ]
}

// Whether none of four words has a chunk. By one `or`: `free == [0; 4]` takes half as long again.
fn is_none(free: [u64; 4]) -> bool
    ensures { (result ≡ true → NoneOfFour free) × (result ≡ false → NoneOfFour free → ⊥) }
{
    free[0] | free[1] | free[2] | free[3] == 0
}

// Whether two words are both free throughout: a chunk of 128 blocks.
fn are_whole(lower: u64, upper: u64) -> bool
    ensures { (a : List ℕ) (i : ℕ) → FreeChunks 6 a i lower → FreeChunks 6 a (i + 64) upper
        → (result ≡ true → largest_free 7 a i ≡ 128) × (result ≡ false → largest_free 7 a i ≤ 64) }
{
    lower != 0 && upper != 0
}

// The largest free chunk of 256 blocks, from those of their four words that are free throughout, of which there are some.
fn of_whole(free: [u64; 4]) -> usize
    ensures { (a : List ℕ) (i : ℕ) → FourChunks 6 a i free → 64 ≤ largest_free 8 a i → result ≡ largest_free 8 a i }
{
    match (are_whole(free[0], free[1]), are_whole(free[2], free[3])) {
        (true, true) => 256,
        (true, false) | (false, true) => 128,
        (false, false) => 64,
    }
}

// The largest free chunk of 256 blocks, of which those are free whose bit is 1. The sizes go up for all four words together: what one
// word's figure is decides nothing, so that there is one test for each size.
pub fn figure_of_four(free: [u64; 4]) -> usize
    ensures { (a : List ℕ) (i : ℕ) → FourChunks 0 a i free → result ≡ largest_free 8 a i }
{
    if is_none(free) {
        return 0;
    }
    let mut chunks = free;
    for size in SIZES {
        let larger = twice_each(chunks, size);
        if is_none(larger) {
            return size;
        }
        chunks = larger;
    }
    of_whole(chunks)
}
