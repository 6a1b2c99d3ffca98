// The tests of an allocation, which end with the search for a place. Nothing here writes.

#![tactic(auto)]

ghost use Rattle.std.specs.Prelude.{◌≡◌, true, ◌*◌, ◌≤◌, length};
ghost use Rattle.rules.specs.Heap.{is_blocks, exponent};
ghost use Rattle.rules.specs.Sections.{figures};
ghost use Rattle.section_search.specs.Search.{Found};
ghost use Rattle.types.specs.Told.{replied};
ghost use Rattle.test_allocation.specs.Replies.{allocate_reply};

use search_chunk::Searched;
use section_search::find_chunk;
use types::{Ref, Refusal};

// The block that an object of n blocks would start at, and how many blocks the search looked at.
fn find_place(blocks: usize, a: &[u8], sections: &[Ref], n: usize) -> Searched
    requires { (is_blocks blocks ≡ true) × (blocks ≤ 8 * length a.now) × (sections.now ≡ figures blocks a.now) × (1 ≤ n) × (n ≤ blocks) }
    ensures { Found blocks (exponent n) a.now result.at result.looks }
{
    let size = search_size::chunk_size(n);
    find_chunk(blocks, a, sections, size)
}

// The block that an allocation of n blocks into root r starts at, or why it is refused.
pub fn allocate_reply(
    blocks: usize,
    a: &[u8],
    sections: &[Ref],
    roots: usize,
    n: usize,
    r: usize,
) -> Result<usize, Refusal>
    requires { (is_blocks blocks ≡ true) × (blocks ≤ 8 * length a.now) × (sections.now ≡ figures blocks a.now) }
    ensures { replied result ≡ allocate_reply blocks a.now roots n r }
{
    if n == 0 || blocks < n {
        return Err(Refusal::BadSize);
    }
    if roots <= r {
        return Err(Refusal::BadRoot);
    }
    match find_place(blocks, a, sections, n).at {
        Some(at) => Ok(at),
        None => Err(Refusal::NoChunk),
    }
}
