// The run over the whole input, on buffers of the largest lengths, of which parts are lent.
ghost use Rattle.calls_lent.specs.Within.{Within};

use crate::reading;
use calls_entries::Entry;
use std::io::Read;
use types::{MAX_BLOCKS, MAX_NUMBER, Ref, Reply};

// More entries than any input has: together they are longer than 2^64 bytes.
const MOST: usize = 1152921504606846976;

// What is wrong with an entry.
fn say_wrong(rt: &(impl Print + Eprint), call: usize, text: &[u8]) -> bool {
    calls_output::say(rt, b"call ");
    calls_output::say_number(rt, call as u64);
    calls_output::say(rt, b": ");
    calls_output::say(rt, text)
}

// Entry number k. A length is set here, and what is wrong with an entry is said here: then nothing is left to do, as of a length.
fn next_entry(
    rt: &(impl Print + Eprint),
    input: &mut impl Read,
    lengths: &mut [usize; calls_lent::BUFFERS],
    k: usize,
) -> Entry
    requires { Within lengths.old }
    ensures { Within lengths.new }
{
    let mut e = reading::read_entry(input, 0);
    let kind = e.kind;
    if e.bytes < 32 {
        if e.bytes > 0 {
            say_wrong(rt, k, b"cut off\n");
        }
        e.kind = calls_entries::END;
    } else if kind == calls_entries::LENGTH {
        if !calls_lent::set_length(lengths, e.x, e.y) {
            say_wrong(rt, k, b"length out of range\n");
        }
    } else if (kind == calls_entries::NEW || kind == calls_entries::COPY)
        && calls_lent::is_too_large(e.x, e.y, e.z)
    {
        say_wrong(rt, k, b"too large\n");
        e.kind = calls_entries::LENGTH;
    } else if kind == calls_entries::WRITE_NUMBER && e.z > MAX_NUMBER {
        say_wrong(rt, k, b"number out of range\n");
        e.kind = calls_entries::LENGTH;
    } else if kind == calls_entries::REASON && e.y > calls_entries::MAX_SENTENCE
        || kind == calls_entries::SHAPE && e.x > calls_entries::MAX_SHAPE
    {
        say_wrong(rt, k, b"length out of range\n");
        e.kind = calls_entries::LENGTH;
    } else if kind > calls_entries::LAST_CALL
        && kind != calls_entries::REASON
        && kind != calls_entries::SHAPE
        && kind != calls_entries::COPY
        && kind != calls_entries::LOAD
        && kind != calls_entries::NEW
    {
        say_wrong(rt, k, b"unknown call ");
        calls_output::say_number(rt, kind as u64);
        calls_output::end_line(rt);
        e.kind = calls_entries::LENGTH;
    }
    e
}

// Says what came of entry number k; false where the last write failed.
fn say_outcome(rt: &(impl Print + Eprint), kind: usize, reply: Reply, k: usize) -> bool {
    if kind <= calls_entries::LAST_CALL {
        return calls_output::say_reply(rt, reply);
    }
    if kind == calls_entries::LOAD && reply.number != 0 {
        return say_wrong(rt, k, b"load out of range\n");
    }
    reply.number == 0
}

// The entries of all heaps, each of which starts with zeros.
pub fn run(rt: &(impl Print + Eprint), input: &mut impl Read, first: Entry) {
    let mut heap = first;
    let mut a = [0u8; calls_lent::MAX_BYTES];
    let mut b = [0u8; calls_lent::MAX_BYTES];
    let mut counts = [0u8; calls_lent::MAX_COUNTS];
    let mut cells = [0 as Ref; calls_lent::MAX_CELLS];
    let mut roots = [0 as Ref; calls_lent::MAX_ROOTS];
    let mut waiting = [0 as Ref; MAX_BLOCKS];
    let mut sections = [0 as Ref; calls_lent::MAX_SECTIONS];
    let mut d = [0u8; calls_lent::MAX_BYTES];
    let mut marks = [0u8; calls_lent::MAX_BYTES];
    let mut list = [0 as Ref; calls_lent::MAX_LIST];
    let mut lengths = calls_lent::lengths(heap.x, heap.y, heap.z);
    let mut k = 0;
    while k < MOST {
        let e = next_entry(rt, input, &mut lengths, k);
        let la = lengths[0];
        let lb = lengths[1];
        let lcounts = lengths[2];
        let lcells = lengths[3];
        let lroots = lengths[4];
        let lwaiting = lengths[5];
        let lsections = lengths[6];
        let ld = lengths[7];
        let lmarks = lengths[8];
        let llist = lengths[9];
        let reply = calls_entries::perform::perform(
            rt,
            heap,
            &mut a[..la],
            &mut b[..lb],
            &mut counts[..lcounts],
            &mut cells[..lcells],
            &mut roots[..lroots],
            &mut waiting[..lwaiting],
            &mut sections[..lsections],
            &mut d[..ld],
            &mut marks[..lmarks],
            &mut list[..llist],
            e,
        );
        if !say_outcome(rt, e.kind, reply, k) || e.kind == calls_entries::END {
            return;
        }
        k += 1;
        if e.kind == calls_entries::NEW {
            heap = e;
            a = [0u8; calls_lent::MAX_BYTES];
            b = [0u8; calls_lent::MAX_BYTES];
            counts = [0u8; calls_lent::MAX_COUNTS];
            cells = [0 as Ref; calls_lent::MAX_CELLS];
            roots = [0 as Ref; calls_lent::MAX_ROOTS];
            waiting = [0 as Ref; MAX_BLOCKS];
            sections = [0 as Ref; calls_lent::MAX_SECTIONS];
            d = [0u8; calls_lent::MAX_BYTES];
            marks = [0u8; calls_lent::MAX_BYTES];
            list = [0 as Ref; calls_lent::MAX_LIST];
            lengths = calls_lent::lengths(e.x, e.y, e.z);
        }
    }
}
