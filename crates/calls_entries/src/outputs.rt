// The calls that write an output, which is no buffer of the heap.
use types::Ref;

// What stands in each place of an output before the call. No sentence has such a byte; a shape has such a number only where a cell of
// data holds it.
const UNWRITTEN_BYTE: u8 = 255;

const UNWRITTEN_NUMBER: u32 = 4294967295;

// The reason why the object at block `at` is kept. The reply is said, and then the output, of the length that an entry names, on a line
// of its own. Whether the last write was made.
fn say_reason(
    rt: &(impl Print + Eprint),
    n: usize,
    w: usize,
    a: &[u8],
    b: &[u8],
    counts: &[u8],
    cells: &[Ref],
    roots: &[Ref],
    waiting: &[Ref],
    sections: &[Ref],
    d: &[u8],
    marks: &[u8],
    list: &[Ref],
    at: usize,
    out: &mut [u8],
    length: usize,
) -> bool {
    let lent = length.min(out.len()); // a greater one comes no further than to the reading of its entry
    let reply = public_output::reason(
        n,
        w,
        a,
        b,
        counts,
        cells,
        roots,
        waiting,
        sections,
        d,
        marks,
        list,
        at,
        &mut out[..lent],
    );
    calls_output::say_reply(rt, reply);
    calls_output::say_list(rt, &out[..lent])
}

// The same, with an output in which nothing is written yet.
pub fn reason(
    rt: &(impl Print + Eprint),
    n: usize,
    w: usize,
    a: &[u8],
    b: &[u8],
    counts: &[u8],
    cells: &[Ref],
    roots: &[Ref],
    waiting: &[Ref],
    sections: &[Ref],
    d: &[u8],
    marks: &[u8],
    list: &[Ref],
    at: usize,
    length: usize,
) -> bool {
    let mut out = [UNWRITTEN_BYTE; crate::MAX_SENTENCE];
    say_reason(
        rt, n, w, a, b, counts, cells, roots, waiting, sections, d, marks, list, at, &mut out,
        length,
    )
}

// The shape of what the roots reach. The reply is said, and then the output, of the length that an entry names, on a line
// of its own. Whether the last write was made.
fn say_shape(
    rt: &(impl Print + Eprint),
    n: usize,
    w: usize,
    a: &[u8],
    b: &[u8],
    counts: &[u8],
    cells: &[Ref],
    roots: &[Ref],
    waiting: &[Ref],
    sections: &[Ref],
    d: &[u8],
    marks: &[u8],
    list: &[Ref],
    out: &mut [u32],
    length: usize,
) -> bool {
    let lent = length.min(out.len()); // a greater one comes no further than to the reading of its entry
    let reply = public_output::shape(
        n,
        w,
        a,
        b,
        counts,
        cells,
        roots,
        waiting,
        sections,
        d,
        marks,
        list,
        &mut out[..lent],
    );
    calls_output::say_reply(rt, reply);
    calls_output::say_list(rt, &out[..lent])
}

// The same, with an output in which nothing is written yet.
pub fn shape(
    rt: &(impl Print + Eprint),
    n: usize,
    w: usize,
    a: &[u8],
    b: &[u8],
    counts: &[u8],
    cells: &[Ref],
    roots: &[Ref],
    waiting: &[Ref],
    sections: &[Ref],
    d: &[u8],
    marks: &[u8],
    list: &[Ref],
    length: usize,
) -> bool {
    let mut out = [UNWRITTEN_NUMBER; crate::MAX_SHAPE];
    say_shape(
        rt, n, w, a, b, counts, cells, roots, waiting, sections, d, marks, list, &mut out, length,
    )
}
