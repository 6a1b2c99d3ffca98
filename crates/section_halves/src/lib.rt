// The largest free chunk of a chunk's blocks (request U4), read off the A-map: by recursion on the chunk's halves, down to one block, or to
// 64 blocks at once, which are one word, or 256, which are four.

#![tactic(auto)]

ghost use Rattle.std.specs.Prelude.{◌≡◌, ℕ, ◌+◌, ◌*◌, ◌%◌, ◌^◌, ◌<◌, ◌≤◌, length};
ghost use Rattle.rules.specs.Sections.{largest_free};
ghost use Rattle.section_halves.specs.Figures.{of_halves};

// "A chunk of one block is free when its A bit is 0".
fn of_block(a: &[u8], at: usize) -> usize
    requires { at < 8 * length a.now }
    ensures { result ≡ largest_free 0 a.now at }
{
    if bitmap::get_bit(a, at) == 0 { 1 } else { 0 }
}

// The largest free chunk of 64 blocks, which are eight bytes of the map, as one word: what the recursion gives for them.
fn of_word(a: &[u8], at: usize) -> usize
    requires { (at % 8 ≡ 0) × (at + 64 ≤ 8 * length a.now) × (at + 64 < 2 ^ 64) }
    ensures { result ≡ largest_free 6 a.now at }
{
    section_words::figure(section_words::eight_bytes(a, at / 8))
}

// The same for 256 blocks, which are four words.
fn of_four_words(a: &[u8], at: usize) -> usize
    requires { (at % 8 ≡ 0) × (at + 256 ≤ 8 * length a.now) × (at + 256 < 2 ^ 64) }
    ensures { result ≡ largest_free 8 a.now at }
{
    section_words::figure_of_four(section_words::free_of_four(a, at / 8))
}

// The largest free chunk of a chunk, from those of its two halves, of `half` blocks each: the whole chunk where both halves are free.
fn of_halves(lower: usize, upper: usize, half: usize) -> usize
    requires { half < 2 ^ 63 }
    ensures { result ≡ of_halves half lower upper }
{
    if lower < upper {
        upper
    } else if upper == half {
        half + half
    } else {
        lower
    }
}

// The largest free chunk of the `size` blocks from block `at` on: all of them where both halves are free, else the larger of what their
// halves have. Chunks of fewer than 64 blocks go down to their blocks, larger ones to words of 64, or to four of them at once.
pub fn largest_free(a: &[u8], at: usize, size: usize) -> usize
    requires by_index { (k : ℕ) × (size ≡ 2 ^ k) }
    requires at_value { (64 ≤ size → at % 8 ≡ 0) × (at + size ≤ 8 * length a.now) × (at + size < 2 ^ 64) }
    ensures { (k : ℕ) → size ≡ 2 ^ k → result ≡ largest_free k a.now at }
{
    match size {
        256 => of_four_words(a, at),
        64 => of_word(a, at),
        1 => of_block(a, at),
        _ => {
            let half = size / 2;
            let lower = largest_free(a, at, half);
            let upper = largest_free(a, at + half, half);
            of_halves(lower, upper, half)
        }
    }
}
