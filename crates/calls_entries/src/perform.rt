// What is done with the lent buffers. Here alone they are all lent on.
use crate::{Entry, outputs};
use types::{MAX_NUMBER, Ref, Refusal, Reply, replies};

// What came of an entry that is no call, as a reply: the number is 0 where it was done.
fn outcome(done: bool) -> Reply {
    if done {
        replies::acceptance(0)
    } else {
        Refusal::Misshapen.into()
    }
}

// What only reads the buffers: check, look, free blocks, the read of a number, what writes an output, and the copy into a second heap; of a
// length nothing is left to do; at the end of a heap its buffers, a line each.
fn read(
    rt: &(impl Print + Eprint),
    n: usize,
    w: usize,
    a: &[u8],
    b: &[u8],
    counts: &[u8],
    cells: &[Ref],
    roots: &[Ref],
    waiting: &[Ref],
    sections: &[Ref],
    d: &[u8],
    marks: &[u8],
    list: &[Ref],
    e: Entry,
) -> Reply {
    let kind = e.kind;
    match kind {
        1 => public_read::check(
            n, w, a, b, counts, cells, roots, waiting, sections, d, marks, list,
        ),
        6 => public_read::look(
            n, w, a, b, counts, cells, roots, waiting, sections, d, marks, list, e.x,
        ),
        7 => public_read::free_blocks(
            n, w, a, b, counts, cells, roots, waiting, sections, d, marks, list,
        ),
        11 => public_read::read_number(
            n, w, a, b, counts, cells, roots, waiting, sections, d, marks, list, e.x, e.y,
        ),
        240 => outcome(outputs::reason(
            rt, n, w, a, b, counts, cells, roots, waiting, sections, d, marks, list, e.x, e.y,
        )),
        241 => outcome(outputs::shape(
            rt, n, w, a, b, counts, cells, roots, waiting, sections, d, marks, list, e.x,
        )),
        242 => outcome(calls_copy::copy(
            rt, n, w, a, b, counts, cells, roots, waiting, sections, d, marks, list, e.x, e.y, e.z,
        )),
        254 => outcome(true),
        _ => outcome(calls_copy::say_heap(
            rt, a, b, counts, cells, roots, waiting, sections, d, marks, list,
        )),
    }
}

// The number that an entry writes. One that no cell holds comes no further than to the reading of its entry.
fn narrow(number: usize) -> Ref {
    (number % (MAX_NUMBER + 1)) as Ref
}

// A load into a buffer of bytes.
fn load_byte(list: &mut [u8], i: usize, value: usize) -> Reply {
    if i < list.len() && value < 256 {
        list[i] = (value % 256) as u8;
        return outcome(true);
    }
    outcome(false)
}

// A load into a buffer of references.
fn load_ref(list: &mut [Ref], i: usize, value: usize) -> Reply {
    if i < list.len() && value <= MAX_NUMBER {
        list[i] = (value % (MAX_NUMBER + 1)) as Ref;
        return outcome(true);
    }
    outcome(false)
}

// A load, a call that writes, or what only reads.
pub fn perform(
    rt: &(impl Print + Eprint),
    heap: Entry,
    a: &mut [u8],
    b: &mut [u8],
    counts: &mut [u8],
    cells: &mut [Ref],
    roots: &mut [Ref],
    waiting: &mut [Ref],
    sections: &mut [Ref],
    d: &mut [u8],
    marks: &mut [u8],
    list: &mut [Ref],
    e: Entry,
) -> Reply {
    let n = heap.x;
    let w = heap.y;
    let kind = e.kind;
    let x = e.x;
    let y = e.y;
    let z = e.z;
    if kind == crate::LOAD {
        return match x {
            0 => load_byte(a, y, z),
            1 => load_byte(b, y, z),
            2 => load_byte(counts, y, z),
            3 => load_ref(cells, y, z),
            4 => load_ref(roots, y, z),
            5 => load_ref(waiting, y, z),
            6 => load_ref(sections, y, z),
            7 => load_byte(d, y, z),
            8 => load_byte(marks, y, z),
            9 => load_ref(list, y, z),
            _ => outcome(false),
        };
    }
    let chosen = x as u64;
    let number = narrow(z);
    match kind {
        0 => public_heap::format(
            n, w, a, b, counts, cells, roots, waiting, sections, d, marks, list,
        ),
        2 => public_heap::allocate(
            n, w, a, b, counts, cells, roots, waiting, sections, d, marks, list, x, y,
        ),
        3 => public_store::store_root(
            n, w, a, b, counts, cells, roots, waiting, sections, d, marks, list, x, y,
        ),
        4 => public_store::store_cell(
            n, w, a, b, counts, cells, roots, waiting, sections, d, marks, list, x, y, z,
        ),
        5 => public_heap::collect(
            n, w, a, b, counts, cells, roots, waiting, sections, d, marks, list,
        ),
        8 => public_store::return_roots(
            n, w, a, b, counts, cells, roots, waiting, sections, d, marks, list, chosen,
        ),
        9 => public_heap::allocate_data(
            n, w, a, b, counts, cells, roots, waiting, sections, d, marks, list, x, y,
        ),
        10 => public_store::write_number(
            n, w, a, b, counts, cells, roots, waiting, sections, d, marks, list, x, y, number,
        ),
        12 => public_steps::open_collection(
            n, w, a, b, counts, cells, roots, waiting, sections, d, marks, list,
        ),
        13 => public_steps::step_collection(
            n, w, a, b, counts, cells, roots, waiting, sections, d, marks, list, x,
        ),
        _ => read(
            rt, n, w, a, b, counts, cells, roots, waiting, sections, d, marks, list, e,
        ),
    }
}
