// A list of calls from standard input, made through the public calls. docs/FILES.md states the file's form and what is printed.

#![tactic(auto)]

mod reading;
mod run;

fn main(rt: HostRuntime) {
    let mut input = rt.stdin();
    let heap = reading::read_entry(&mut input, 8);
    if heap.bytes < 24 {
        calls_output::say(&rt, b"header: cut off\n");
    } else if calls_lent::is_too_large(heap.x, heap.y, heap.z) {
        calls_output::say(&rt, b"header: too large\n");
    } else {
        run::run(&rt, &mut input, heap);
    }
}
