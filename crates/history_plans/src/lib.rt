// What each record of a history asks for, as a plan.

#![tactic(auto)]

ghost use Rattle.std.specs.Prelude.{◌≡◌, [], ◌≤◌};
ghost use Rattle.rules.specs.Heap.{memory, lent_memory, max_number};
ghost use Rattle.history_plans.specs.Asked.{copying, writing, reading, clearing, writing_number, asked};
ghost use Rattle.history_plans.specs.Meaning.{meaning};
ghost use Rattle.history_plans.specs.Readable.{Readable, are_roots};

use history_records::Fields;
use map_objects::objects;
use types::Ref;

// What a record asks for: a call, or a number that stops the run, which is printed as it is.
#[derive(Clone, Copy)]
pub enum Plan {
    Stop(usize),
    Allocate { as_data: bool, n: usize, r: usize },
    StoreRoot { r: usize, v: usize },
    StoreCell { at: usize, j: usize, v: usize },
    Collect,
    WriteNumber { at: usize, j: usize, x: Ref },
}

// "A root out of range gives 4": whether both roots of an operation that names two are in range.
fn both_roots(roots: &[Ref], f: Fields) -> bool
    ensures { result ≡ are_roots roots.now f }
{
    f.d < roots.len() && f.s < roots.len()
}

// Root s copied to root d.
fn plan_copy(roots: &[Ref], f: Fields) -> Plan
    ensures { meaning result ≡ copying (memory [] [] [] [] roots.now []) f }
{
    if !both_roots(roots, f) {
        return Plan::Stop(4);
    }
    Plan::StoreRoot {
        r: f.d,
        v: roots[f.s] as usize,
    }
}

// Root s written into cell c of the object in root d.
fn plan_write(roots: &[Ref], f: Fields) -> Plan
    ensures { meaning result ≡ writing (memory [] [] [] [] roots.now []) f }
{
    if !both_roots(roots, f) {
        return Plan::Stop(4);
    }
    let owner = roots[f.d] as usize;
    if owner == 0 {
        return Plan::Stop(6);
    }
    Plan::StoreCell {
        at: owner - 1,
        j: f.c,
        v: roots[f.s] as usize,
    }
}

// Cell c of the object in root s read into root d. Here `d` is the D-map.
fn plan_read(blocks: usize, b: &[u8], cells: &[Ref], roots: &[Ref], d: &[u8], f: Fields) -> Plan
    requires { Readable blocks b.now cells.now roots.now d.now }
    ensures { meaning result
        ≡ reading blocks
        (lent_memory [] b.now [] cells.now roots.now [] [] d.now [] []) f }
{
    if !both_roots(roots, f) {
        return Plan::Stop(4);
    }
    let owner = roots[f.s] as usize;
    if owner == 0 {
        return Plan::Stop(6);
    }
    let at = owner - 1;
    if 4 * objects::object_size(blocks, b, at) <= f.c {
        return Plan::Stop(7);
    }
    if bitmap::get_bit(d, at) == 1 {
        return Plan::Stop(12);
    }
    Plan::StoreRoot {
        r: f.d,
        v: cells[4 * at + f.c] as usize,
    }
}

// Root d cleared.
fn plan_clear(roots: &[Ref], f: Fields) -> Plan
    ensures { meaning result ≡ clearing (memory [] [] [] [] roots.now []) f }
{
    if roots.len() <= f.d {
        Plan::Stop(4)
    } else {
        Plan::StoreRoot { r: f.d, v: 0 }
    }
}

// The size field's number written into cell c of the data in root d.
fn plan_number(roots: &[Ref], f: Fields) -> Plan
    requires { f.size ≤ max_number }
    ensures { meaning result ≡ writing_number (memory [] [] [] [] roots.now []) f }
{
    if roots.len() <= f.d {
        return Plan::Stop(4);
    }
    let owner = roots[f.d] as usize;
    if owner == 0 {
        return Plan::Stop(6);
    }
    Plan::WriteNumber {
        at: owner - 1,
        j: f.c,
        x: f.size as Ref,
    }
}

// What a record asks for. Here `d` is the D-map.
pub fn plan_of(blocks: usize, b: &[u8], cells: &[Ref], roots: &[Ref], d: &[u8], f: Fields) -> Plan
    requires { Readable blocks b.now cells.now roots.now d.now × (f.size ≤ max_number) }
    ensures { meaning result
        ≡ asked blocks
        (lent_memory [] b.now [] cells.now roots.now [] [] d.now [] []) f }
{
    if !history_records::unnamed_are_zero(f) {
        return Plan::Stop(9);
    }
    match f.operation {
        1 => Plan::Allocate {
            as_data: false,
            n: f.size,
            r: f.d,
        },
        2 => plan_copy(roots, f),
        3 => plan_write(roots, f),
        4 => plan_read(blocks, b, cells, roots, d, f),
        5 => plan_clear(roots, f),
        6 => Plan::Collect,
        7 => Plan::Allocate {
            as_data: true,
            n: f.size,
            r: f.d,
        },
        8 => plan_number(roots, f),
        _ => Plan::Stop(9),
    }
}
