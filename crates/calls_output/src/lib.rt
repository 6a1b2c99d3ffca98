// Standard output of the program `calls`. A failed write is said on standard error. A function says whether its last write was made.

#![tactic(auto)]

use types::Reply;

pub fn say(rt: &(impl Print + Eprint), text: &[u8]) -> bool {
    let is_made = rt.write_all(text).is_ok();
    if !is_made {
        // A complaint that can't be made either is let go.
        let _ = rt.eprint("calls: a write to standard output failed\n");
    }
    is_made
}

pub fn end_line(rt: &(impl Print + Eprint)) -> bool {
    say(rt, b"\n")
}

pub fn say_number(rt: &(impl Print + Eprint), number: u64) -> bool {
    let mut digits = [0u8; 20];
    let n = io::decimal(number, &mut digits);
    say(rt, &digits[..n])
}

// Number i of a line.
fn say_item(rt: &(impl Print + Eprint), i: usize, number: u64) -> bool {
    if i > 0 {
        say(rt, b" ");
    }
    say_number(rt, number)
}

pub fn say_reply(rt: &(impl Print + Eprint), reply: Reply) -> bool {
    say_item(rt, 0, reply.number as u64);
    say_item(rt, 1, reply.value as u64);
    say_item(rt, 2, reply.second as u64);
    end_line(rt)
}

// The line of a buffer or an output.
pub fn say_list<T: Copy + Into<u64>>(rt: &(impl Print + Eprint), list: &[T]) -> bool {
    for (i, number) in list.iter().enumerate() {
        if !say_item(rt, i, (*number).into()) {
            return false;
        }
    }
    end_line(rt)
}
