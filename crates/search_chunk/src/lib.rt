// The search of the A-map for the lowest free chunk.

#![tactic(auto)]

ghost use Rattle.std.specs.Prelude.{◌≡◌, true, ℕ, ◌*◌, ◌%◌, ◌^◌, ◌≤◌, length};
ghost use Rattle.rules.specs.Heap.{max_blocks};
ghost use Rattle.search_walk.specs.Search.{Part, lowest_in, Search};

use search_walk::is_judged_free;

// What a search found: the first block of a chunk, if there is one, and how many blocks it looked at.
#[derive(Clone, Copy)]
pub struct Searched {
    pub at: Option<usize>,
    pub looks: usize,
}

// The search by bytes. The walk has come to block `from + looks`, and `stretch` is the length of the free stretch that ends there:
// a chunk is judged from it where it ends. Each byte is read once, and its value judges its blocks: chunk by chunk where chunks have
// less than eight, else, and where all are used, eight at once. A used block ends the stretch; the free ones after it begin the next.
// Loops left by labels, the form of this place (docs/DECISIONS.md, "Forms by place"), and no `for`: the byte's value says whether the
// walk goes on by a byte, by a chunk or at the next stretch.
fn walk_bytes(a: &[u8], from: usize, to: usize, size: usize) -> Searched
    requires part { Part from to size }
    requires to_bound { (to ≤ 8 * length a.now) × (to ≤ max_blocks) }
    ensures { (k : ℕ) → size ≡ 2 ^ k → Search from to k (lowest_in from to k a.now) result.at result.looks }
{
    let mut looks = 0;
    let mut stretch = 0;
    let at = 'bytes: loop {
        if from + looks == to {
            break None;
        }
        let byte = a[(from + looks) / 8];
        if size < 8 && byte != 255 {
            let mut i: usize = 0;
            'stretches: loop {
                loop {
                    if i == 8 {
                        continue 'bytes;
                    }
                    let chunk = (byte >> i) << (8 - size);
                    i += size;
                    looks += size;
                    if chunk != 0 {
                        stretch = chunk.leading_zeros() as usize;
                        continue 'stretches;
                    }
                    stretch += size;
                    if is_judged_free(from + looks, size, stretch) {
                        break 'bytes Some(from + looks - size);
                    }
                }
            }
        }
        looks += 8;
        if byte != 0 {
            stretch = byte.leading_zeros() as usize;
            continue 'bytes;
        }
        stretch += 8;
        if is_judged_free(from + looks, size, stretch) {
            break Some(from + looks - size);
        }
    };
    Searched { at, looks }
}

// The search by words, for chunks of at most 64 blocks, which lie in one word each. The walk has come to the word from block
// `from + looks` on. Each word is read once, and judges its blocks: `free` has the free chunks of `s` blocks in it, of twice the size
// each time, and where there is none the word is passed. Of those of `size` blocks the lowest is taken. Loops
// left by labels here too: `looks` goes up by a word or by a part of one, and `s` doubles.
fn walk_words(a: &[u8], from: usize, to: usize, size: usize) -> Searched
    requires part { Part from to size }
    requires to_bound { (to ≤ 8 * length a.now) × (to ≤ max_blocks) × (size ≤ 64) × (from % 64 ≡ 0) × (to % 64 ≡ 0) }
    ensures { (k : ℕ) → size ≡ 2 ^ k → Search from to k (lowest_in from to k a.now) result.at result.looks }
{
    let mut looks = 0;
    let at = 'words: loop {
        if from + looks == to {
            break 'words None;
        }
        let mut free = !section_words::eight_bytes(a, (from + looks) / 8);
        let mut s = 1;
        loop {
            if free == 0 {
                looks += 64;
                continue 'words;
            }
            if s == size {
                looks += free.trailing_zeros() as usize + size;
                break 'words Some(from + looks - size);
            }
            free = section_words::twice(free, s);
            s += s;
        }
    };
    Searched { at, looks }
}

// Whether chunks of `size` blocks lie in one word each, and the part has whole words.
fn goes_by_words(from: usize, to: usize, size: usize) -> bool
    ensures { result ≡ true → (size ≤ 64) × (from % 64 ≡ 0) × (to % 64 ≡ 0) }
{
    size <= 64 && from % 64 == 0 && to % 64 == 0
}

// The lowest free chunk of `size` blocks from block `from` up to block `to`.
pub fn lowest_chunk(a: &[u8], from: usize, to: usize, size: usize) -> Searched
    requires part { Part from to size }
    requires to_bound { (to ≤ 8 * length a.now) × (to ≤ max_blocks) }
    ensures { (k : ℕ) → size ≡ 2 ^ k → Search from to k (lowest_in from to k a.now) result.at result.looks }
{
    if goes_by_words(from, to, size) {
        walk_words(a, from, to, size)
    } else {
        walk_bytes(a, from, to, size)
    }
}
