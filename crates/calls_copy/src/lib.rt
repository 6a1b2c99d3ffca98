// The copy into a second heap (request U14), for the program `calls`. The second heap is made for the entry: all its bits are 1, so
// that what a copy leaves is what it wrote.

#![tactic(auto)]

ghost use Rattle.std.specs.Prelude.{◌≤◌};

use calls_lent::{MAX_BYTES, MAX_CELLS, MAX_COUNTS, MAX_LIST, MAX_ROOTS, MAX_SECTIONS};
use types::{MAX_BLOCKS, Ref};

const FULL_BYTE: u8 = u8::MAX;

const FULL_NUMBER: Ref = Ref::MAX;

// A length, and no more than there is. As a function, since its contract is what the bounds of the parts follow from: of `min` alone the
// bound of the part of the cells isn't found.
fn within(length: usize, largest: usize) -> usize
    ensures { result ≤ largest }
{
    length.min(largest)
}

// The lines of a heap's buffers. Whether the last write was made.
pub fn say_heap(
    rt: &(impl Print + Eprint),
    a: &[u8],
    b: &[u8],
    counts: &[u8],
    cells: &[Ref],
    roots: &[Ref],
    waiting: &[Ref],
    sections: &[Ref],
    d: &[u8],
    marks: &[u8],
    list: &[Ref],
) -> bool {
    calls_output::say_list(rt, a);
    calls_output::say_list(rt, b);
    calls_output::say_list(rt, counts);
    calls_output::say_list(rt, cells);
    calls_output::say_list(rt, roots);
    calls_output::say_list(rt, waiting);
    calls_output::say_list(rt, sections);
    calls_output::say_list(rt, d);
    calls_output::say_list(rt, marks);
    calls_output::say_list(rt, list)
}

// Copies the first heap into the second. The reply is said, and then the second heap's buffers. Whether the last write was made.
fn say_copy(
    rt: &(impl Print + Eprint),
    n: usize,
    w: usize,
    a: &[u8],
    b: &[u8],
    counts: &[u8],
    cells: &[Ref],
    roots: &[Ref],
    waiting: &[Ref],
    sections: &[Ref],
    d: &[u8],
    marks: &[u8],
    list: &[Ref],
    n2: usize,
    w2: usize,
    a2: &mut [u8],
    b2: &mut [u8],
    counts2: &mut [u8],
    cells2: &mut [Ref],
    roots2: &mut [Ref],
    waiting2: &mut [Ref],
    sections2: &mut [Ref],
    d2: &mut [u8],
    marks2: &mut [u8],
    list2: &mut [Ref],
) -> bool {
    let reply = public_copy::copy(
        n, w, a, b, counts, cells, roots, waiting, sections, d, marks, list, n2, w2, a2, b2,
        counts2, cells2, roots2, waiting2, sections2, d2, marks2, list2,
    );
    calls_output::say_reply(rt, reply);
    say_heap(
        rt, a2, b2, counts2, cells2, roots2, waiting2, sections2, d2, marks2, list2,
    )
}

// The same, into a heap of n2 blocks, count width w2 and so many roots, which is lent at the lengths of these numbers.
pub fn copy(
    rt: &(impl Print + Eprint),
    n: usize,
    w: usize,
    a: &[u8],
    b: &[u8],
    counts: &[u8],
    cells: &[Ref],
    roots: &[Ref],
    waiting: &[Ref],
    sections: &[Ref],
    d: &[u8],
    marks: &[u8],
    list: &[Ref],
    n2: usize,
    w2: usize,
    root_count: usize,
) -> bool {
    let lengths = calls_lent::lengths(n2, w2, root_count);
    let bytes = within(lengths[0], MAX_BYTES);
    let in_counts = within(lengths[2], MAX_COUNTS);
    let in_cells = within(lengths[3], MAX_CELLS);
    let in_roots = within(lengths[4], MAX_ROOTS);
    let in_waiting = within(lengths[5], MAX_BLOCKS);
    let in_sections = within(lengths[6], MAX_SECTIONS);
    let in_list = within(lengths[9], MAX_LIST);
    let mut a2 = [FULL_BYTE; MAX_BYTES];
    let mut b2 = [FULL_BYTE; MAX_BYTES];
    let mut counts2 = [FULL_BYTE; MAX_COUNTS];
    let mut cells2 = [FULL_NUMBER; MAX_CELLS];
    let mut roots2 = [FULL_NUMBER; MAX_ROOTS];
    let mut waiting2 = [FULL_NUMBER; MAX_BLOCKS];
    let mut sections2 = [FULL_NUMBER; MAX_SECTIONS];
    let mut d2 = [FULL_BYTE; MAX_BYTES];
    let mut marks2 = [FULL_BYTE; MAX_BYTES];
    let mut list2 = [FULL_NUMBER; MAX_LIST];
    say_copy(
        rt,
        n,
        w,
        a,
        b,
        counts,
        cells,
        roots,
        waiting,
        sections,
        d,
        marks,
        list,
        n2,
        w2,
        &mut a2[..bytes],
        &mut b2[..bytes],
        &mut counts2[..in_counts],
        &mut cells2[..in_cells],
        &mut roots2[..in_roots],
        &mut waiting2[..in_waiting],
        &mut sections2[..in_sections],
        &mut d2[..bytes],
        &mut marks2[..bytes],
        &mut list2[..in_list],
    )
}
