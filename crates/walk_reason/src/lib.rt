// The call of request U11: the sentence that gives the reason why an object is kept. The arrays of the walk are the shortest of three that
// have a place for each block, since they are cleared in every call.

#![tactic(auto)]

ghost use Rattle.std.specs.Prelude.{◌≡◌, ◌++◌, ◌+◌, ◌≤◌, ◌<◌, length};
ghost use Rattle.rules.specs.Heap.{max_blocks};
ghost use Rattle.rules.specs.Lent.{before, after, lent};
ghost use Rattle.rules_calls.specs.Promise.{ReasonPromise};
ghost use Rattle.rules_output.specs.Sentence.{sentence};
ghost use Rattle.text.specs.Text.{decimal, Put};
ghost use Rattle.theory_memories.specs.Heaps.{Undamaged};
ghost use Rattle.walk_objects.specs.Walking.{walked_heap, Walkable};
ghost use Rattle.walk_reason.specs.Telling.{reason_in, Told};

use types::{MAX_BLOCKS, MIDDLE_ROOM, Ref, Refusal, Reply, SMALL_ROOM, replies};

// The words of a sentence, each before its number.
const NO_ROOT: &[u8] = b"no root reaches block ";

const ROOT: &[u8] = b"root ";

const CELL: &[u8] = b" cell ";

const BLOCK: &[u8] = b" block ";

// How many digits n has. They are written to be counted: by `ilog10` a sentence of many links took 1.3 times
// as long.
fn digits_of(n: u64) -> usize
    ensures { (result ≡ length (decimal n)) × (result ≤ 20) }
{
    let mut digits = [0u8; 20];
    io::decimal(n, &mut digits)
}

// Writes a text and a number at place `at`, as `text` does each. The place behind them.
fn put_numbered(out: &mut [u8], at: usize, words: &[u8], n: u64) -> usize
    requires { at + length (words.now ++ decimal n) ≤ length out.old }
    ensures { Put out.old at (words.now ++ decimal n) out.new result }
{
    let to = text::put_text(out, at, words);
    text::put_decimal(out, to, n)
}

// How long the sentence for block `at` is, from the links to its object, the last one first; no links are no
// chain.
fn sentence_length(links: &[Ref], at: usize) -> usize
    requires { length links.now ≤ max_blocks }
    ensures { result ≡ length (sentence (reason_in links.now) at) }
{
    let Some((&root, cells)) = links.split_last() else {
        return NO_ROOT.len() + digits_of(at as u64) + 1;
    };
    let mut n = ROOT.len() + digits_of(root as u64);
    for &cell in cells {
        n += CELL.len() + digits_of(cell as u64);
    }
    n + BLOCK.len() + digits_of(at as u64) + 1
}

// Writes the sentence. How long it is.
fn write_sentence(links: &[Ref], at: usize, out: &mut [u8]) -> usize
    requires { (length links.now ≤ max_blocks) × (length (sentence (reason_in links.now) at) ≤ length out.old) }
    ensures { Put out.old 0 (sentence (reason_in links.now) at) out.new result }
{
    let Some((&root, cells)) = links.split_last() else {
        let to = put_numbered(out, 0, NO_ROOT, at as u64);
        return text::put_text(out, to, b"\n");
    };
    let mut to = put_numbered(out, 0, ROOT, root as u64);
    // By an index, not over `iter().rev()`: it is how many cells are left, by which the invariant goes.
    for i in (0..cells.len()).rev() {
        to = put_numbered(out, to, CELL, cells[i] as u64);
    }
    to = put_numbered(out, to, BLOCK, at as u64);
    text::put_text(out, to, b"\n")
}

// Writes the sentence into `out`, by a walk in arrays of so many places. How long it is; None, and nothing is
// written, where it doesn't fit.
// Not inlined: its arrays are on the stack only while it runs, so a small heap does not take the stack of the
// largest.
#[inline(never)]
fn reason_in_arrays<const PLACES: usize>(
    blocks: usize,
    a: &[u8],
    b: &[u8],
    d: &[u8],
    cells: &[Ref],
    roots: &[Ref],
    at: usize,
    out: &mut [u8],
) -> Option<usize>
    requires { Walkable blocks a.now b.now d.now cells.now roots.now × (at < blocks) × (blocks ≤ PLACES) × (PLACES ≤ max_blocks) }
    ensures { Told blocks (walked_heap a.now b.now d.now cells.now roots.now) at out.old
        out.new result }
{
    let mut order = [0 as Ref; PLACES];
    let mut numbers = [0 as Ref; PLACES];
    let mut owners = [0 as Ref; PLACES];
    let mut vias = [0 as Ref; PLACES];
    walk_objects::trace_all(
        blocks,
        a,
        b,
        d,
        cells,
        roots,
        &mut order,
        &mut numbers,
        &mut owners,
        &mut vias,
    );
    // What `order` held is needed no more.
    let count = walk_objects::links_to(&owners, &vias, &mut order, numbers[at] as usize);
    let links = &order[..count];
    if out.len() < sentence_length(links, at) {
        return None;
    }
    Some(write_sentence(links, at, out))
}

// .. in the shortest of three that have a place for each block.
fn reason_in(
    blocks: usize,
    a: &[u8],
    b: &[u8],
    d: &[u8],
    cells: &[Ref],
    roots: &[Ref],
    at: usize,
    out: &mut [u8],
) -> Option<usize>
    requires { Walkable blocks a.now b.now d.now cells.now roots.now × (at < blocks) }
    ensures { Told blocks (walked_heap a.now b.now d.now cells.now roots.now) at out.old
        out.new result }
{
    if blocks <= SMALL_ROOM {
        reason_in_arrays::<SMALL_ROOM>(blocks, a, b, d, cells, roots, at, out)
    } else if blocks <= MIDDLE_ROOM {
        reason_in_arrays::<MIDDLE_ROOM>(blocks, a, b, d, cells, roots, at, out)
    } else {
        reason_in_arrays::<MAX_BLOCKS>(blocks, a, b, d, cells, roots, at, out)
    }
}

// The reason why the object at block `at` is kept, as a sentence, written into `out`.
pub fn reason(
    blocks: usize,
    width: usize,
    a: &[u8],
    b: &[u8],
    counts: &[u8],
    cells: &[Ref],
    roots: &[Ref],
    waiting: &[Ref],
    sections: &[Ref],
    d: &[u8],
    marks: &[u8],
    list: &[Ref],
    at: usize,
    out: &mut [u8],
) -> Reply
    requires { Undamaged blocks width (lent a.now b.now counts.now cells.now roots.now waiting.now sections.now d.now marks.now list.now) }
    ensures { ReasonPromise blocks width at
        (before a.now b.now counts.now cells.now roots.now waiting.now sections.now d.now marks.now list.now) out.old result
        (after a.now b.now counts.now cells.now roots.now waiting.now sections.now d.now marks.now list.now) out.new }
{
    if !map_objects::objects::is_first(blocks, a, b, at) {
        return Refusal::NoObject.into();
    }
    match reason_in(blocks, a, b, d, cells, roots, at, out) {
        Some(length) => replies::acceptance(length),
        None => Refusal::ShortReason.into(),
    }
}
