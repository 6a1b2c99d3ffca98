// The public calls for C, under the names of include/huwekapo.h: each slice is a pointer and a length, and each contract is the public
// call's.

#![tactic(auto)]

ghost use Rattle.rules.specs.Lent.{before, after};
ghost use Rattle.rules_calls.specs.Calls.{Call};
ghost use Rattle.rules_calls.specs.Promise.{Promise};
ghost use Rattle.replay.specs.Replay.{Replayed};
ghost use Rattle.replay_batch.specs.Batch.{Batch};

use types::{Ref, Reply};

mod copies;
mod outputs;
mod runs;
mod version;

#[unsafe(no_mangle)]
pub extern "C" fn huwekapo_format(
    blocks: usize,
    width: usize,
    a: &mut [u8],
    b: &mut [u8],
    counts: &mut [u8],
    cells: &mut [Ref],
    roots: &mut [Ref],
    waiting: &mut [Ref],
    sections: &mut [Ref],
    d: &mut [u8],
    marks: &mut [u8],
    list: &mut [Ref],
) -> Reply
    ensures { Promise blocks width Call.format
        (before a.old b.old counts.old cells.old roots.old waiting.old sections.old d.old marks.old list.old) result
        (after a.new b.new counts.new cells.new roots.new waiting.new sections.new d.new marks.new list.new) }
{
    public_heap::format(
        blocks, width, a, b, counts, cells, roots, waiting, sections, d, marks, list,
    )
}

#[unsafe(no_mangle)]
pub extern "C" fn huwekapo_allocate(
    blocks: usize,
    width: usize,
    a: &mut [u8],
    b: &mut [u8],
    counts: &mut [u8],
    cells: &mut [Ref],
    roots: &mut [Ref],
    waiting: &mut [Ref],
    sections: &mut [Ref],
    d: &mut [u8],
    marks: &mut [u8],
    list: &mut [Ref],
    n: usize,
    r: usize,
) -> Reply
    ensures { Promise blocks width (Call.allocate n r)
        (before a.old b.old counts.old cells.old roots.old waiting.old sections.old d.old marks.old list.old) result
        (after a.new b.new counts.new cells.new roots.new waiting.new sections.new d.new marks.new list.new) }
{
    public_heap::allocate(
        blocks, width, a, b, counts, cells, roots, waiting, sections, d, marks, list, n, r,
    )
}

#[unsafe(no_mangle)]
pub extern "C" fn huwekapo_store_root(
    blocks: usize,
    width: usize,
    a: &mut [u8],
    b: &mut [u8],
    counts: &mut [u8],
    cells: &mut [Ref],
    roots: &mut [Ref],
    waiting: &mut [Ref],
    sections: &mut [Ref],
    d: &mut [u8],
    marks: &mut [u8],
    list: &mut [Ref],
    r: usize,
    v: usize,
) -> Reply
    ensures { Promise blocks width (Call.store_root r v)
        (before a.old b.old counts.old cells.old roots.old waiting.old sections.old d.old marks.old list.old) result
        (after a.new b.new counts.new cells.new roots.new waiting.new sections.new d.new marks.new list.new) }
{
    public_store::store_root(
        blocks, width, a, b, counts, cells, roots, waiting, sections, d, marks, list, r, v,
    )
}

#[unsafe(no_mangle)]
pub extern "C" fn huwekapo_store_cell(
    blocks: usize,
    width: usize,
    a: &mut [u8],
    b: &mut [u8],
    counts: &mut [u8],
    cells: &mut [Ref],
    roots: &[Ref],
    waiting: &mut [Ref],
    sections: &mut [Ref],
    d: &mut [u8],
    marks: &mut [u8],
    list: &mut [Ref],
    at: usize,
    j: usize,
    v: usize,
) -> Reply
    ensures { Promise blocks width (Call.store_cell at j v)
        (before a.old b.old counts.old cells.old roots.now waiting.old sections.old d.old marks.old list.old) result
        (after a.new b.new counts.new cells.new roots.now waiting.new sections.new d.new marks.new list.new) }
{
    public_store::store_cell(
        blocks, width, a, b, counts, cells, roots, waiting, sections, d, marks, list, at, j, v,
    )
}

#[unsafe(no_mangle)]
pub extern "C" fn huwekapo_return_roots(
    blocks: usize,
    width: usize,
    a: &mut [u8],
    b: &mut [u8],
    counts: &mut [u8],
    cells: &mut [Ref],
    roots: &mut [Ref],
    waiting: &mut [Ref],
    sections: &mut [Ref],
    d: &mut [u8],
    marks: &mut [u8],
    list: &mut [Ref],
    chosen: u64,
) -> Reply
    ensures { Promise blocks width (Call.return_roots chosen)
        (before a.old b.old counts.old cells.old roots.old waiting.old sections.old d.old marks.old list.old) result
        (after a.new b.new counts.new cells.new roots.new waiting.new sections.new d.new marks.new list.new) }
{
    public_store::return_roots(
        blocks, width, a, b, counts, cells, roots, waiting, sections, d, marks, list, chosen,
    )
}

#[unsafe(no_mangle)]
pub extern "C" fn huwekapo_collect(
    blocks: usize,
    width: usize,
    a: &mut [u8],
    b: &mut [u8],
    counts: &mut [u8],
    cells: &mut [Ref],
    roots: &[Ref],
    waiting: &mut [Ref],
    sections: &mut [Ref],
    d: &mut [u8],
    marks: &[u8],
    list: &[Ref],
) -> Reply
    ensures { Promise blocks width Call.collect
        (before a.old b.old counts.old cells.old roots.now waiting.old sections.old d.old marks.now list.now) result
        (after a.new b.new counts.new cells.new roots.now waiting.new sections.new d.new marks.now list.now) }
{
    public_heap::collect(
        blocks, width, a, b, counts, cells, roots, waiting, sections, d, marks, list,
    )
}

#[unsafe(no_mangle)]
pub extern "C" fn huwekapo_check(
    blocks: usize,
    width: usize,
    a: &[u8],
    b: &[u8],
    counts: &[u8],
    cells: &[Ref],
    roots: &[Ref],
    waiting: &[Ref],
    sections: &[Ref],
    d: &[u8],
    marks: &[u8],
    list: &[Ref],
) -> Reply
    ensures { Promise blocks width Call.check
        (before a.now b.now counts.now cells.now roots.now waiting.now sections.now d.now marks.now list.now) result
        (after a.now b.now counts.now cells.now roots.now waiting.now sections.now d.now marks.now list.now) }
{
    public_read::check(
        blocks, width, a, b, counts, cells, roots, waiting, sections, d, marks, list,
    )
}

#[unsafe(no_mangle)]
pub extern "C" fn huwekapo_free_blocks(
    blocks: usize,
    width: usize,
    a: &[u8],
    b: &[u8],
    counts: &[u8],
    cells: &[Ref],
    roots: &[Ref],
    waiting: &[Ref],
    sections: &[Ref],
    d: &[u8],
    marks: &[u8],
    list: &[Ref],
) -> Reply
    ensures { Promise blocks width Call.free_blocks
        (before a.now b.now counts.now cells.now roots.now waiting.now sections.now d.now marks.now list.now) result
        (after a.now b.now counts.now cells.now roots.now waiting.now sections.now d.now marks.now list.now) }
{
    public_read::free_blocks(
        blocks, width, a, b, counts, cells, roots, waiting, sections, d, marks, list,
    )
}

#[unsafe(no_mangle)]
pub extern "C" fn huwekapo_look(
    blocks: usize,
    width: usize,
    a: &[u8],
    b: &[u8],
    counts: &[u8],
    cells: &[Ref],
    roots: &[Ref],
    waiting: &[Ref],
    sections: &[Ref],
    d: &[u8],
    marks: &[u8],
    list: &[Ref],
    at: usize,
) -> Reply
    ensures { Promise blocks width (Call.look at)
        (before a.now b.now counts.now cells.now roots.now waiting.now sections.now d.now marks.now list.now) result
        (after a.now b.now counts.now cells.now roots.now waiting.now sections.now d.now marks.now list.now) }
{
    public_read::look(
        blocks, width, a, b, counts, cells, roots, waiting, sections, d, marks, list, at,
    )
}

#[unsafe(no_mangle)]
pub extern "C" fn huwekapo_allocate_data(
    blocks: usize,
    width: usize,
    a: &mut [u8],
    b: &mut [u8],
    counts: &mut [u8],
    cells: &mut [Ref],
    roots: &mut [Ref],
    waiting: &mut [Ref],
    sections: &mut [Ref],
    d: &mut [u8],
    marks: &mut [u8],
    list: &mut [Ref],
    n: usize,
    r: usize,
) -> Reply
    ensures { Promise blocks width (Call.allocate_data n r)
        (before a.old b.old counts.old cells.old roots.old waiting.old sections.old d.old marks.old list.old) result
        (after a.new b.new counts.new cells.new roots.new waiting.new sections.new d.new marks.new list.new) }
{
    public_heap::allocate_data(
        blocks, width, a, b, counts, cells, roots, waiting, sections, d, marks, list, n, r,
    )
}

#[unsafe(no_mangle)]
pub extern "C" fn huwekapo_write_number(
    blocks: usize,
    width: usize,
    a: &[u8],
    b: &[u8],
    counts: &[u8],
    cells: &mut [Ref],
    roots: &[Ref],
    waiting: &[Ref],
    sections: &[Ref],
    d: &[u8],
    marks: &[u8],
    list: &[Ref],
    at: usize,
    j: usize,
    v: Ref,
) -> Reply
    ensures { Promise blocks width (Call.write_number at j v)
        (before a.now b.now counts.now cells.old roots.now waiting.now sections.now d.now marks.now list.now) result
        (after a.now b.now counts.now cells.new roots.now waiting.now sections.now d.now marks.now list.now) }
{
    public_store::write_number(
        blocks, width, a, b, counts, cells, roots, waiting, sections, d, marks, list, at, j, v,
    )
}

#[unsafe(no_mangle)]
pub extern "C" fn huwekapo_read_number(
    blocks: usize,
    width: usize,
    a: &[u8],
    b: &[u8],
    counts: &[u8],
    cells: &[Ref],
    roots: &[Ref],
    waiting: &[Ref],
    sections: &[Ref],
    d: &[u8],
    marks: &[u8],
    list: &[Ref],
    at: usize,
    j: usize,
) -> Reply
    ensures { Promise blocks width (Call.read_number at j)
        (before a.now b.now counts.now cells.now roots.now waiting.now sections.now d.now marks.now list.now) result
        (after a.now b.now counts.now cells.now roots.now waiting.now sections.now d.now marks.now list.now) }
{
    public_read::read_number(
        blocks, width, a, b, counts, cells, roots, waiting, sections, d, marks, list, at, j,
    )
}

#[unsafe(no_mangle)]
pub extern "C" fn huwekapo_open_collection(
    blocks: usize,
    width: usize,
    a: &[u8],
    b: &[u8],
    counts: &[u8],
    cells: &[Ref],
    roots: &[Ref],
    waiting: &[Ref],
    sections: &[Ref],
    d: &[u8],
    marks: &mut [u8],
    list: &mut [Ref],
) -> Reply
    ensures { Promise blocks width Call.open_collection
        (before a.now b.now counts.now cells.now roots.now waiting.now sections.now d.now marks.old list.old) result
        (after a.now b.now counts.now cells.now roots.now waiting.now sections.now d.now marks.new list.new) }
{
    public_steps::open_collection(
        blocks, width, a, b, counts, cells, roots, waiting, sections, d, marks, list,
    )
}

#[unsafe(no_mangle)]
pub extern "C" fn huwekapo_step_collection(
    blocks: usize,
    width: usize,
    a: &mut [u8],
    b: &mut [u8],
    counts: &mut [u8],
    cells: &mut [Ref],
    roots: &[Ref],
    waiting: &mut [Ref],
    sections: &mut [Ref],
    d: &mut [u8],
    marks: &mut [u8],
    list: &mut [Ref],
    budget: usize,
) -> Reply
    ensures { Promise blocks width (Call.take_steps budget)
        (before a.old b.old counts.old cells.old roots.now waiting.old sections.old d.old marks.old list.old) result
        (after a.new b.new counts.new cells.new roots.now waiting.new sections.new d.new marks.new list.new) }
{
    public_steps::step_collection(
        blocks, width, a, b, counts, cells, roots, waiting, sections, d, marks, list, budget,
    )
}

#[unsafe(no_mangle)]
pub extern "C" fn huwekapo_replay(
    blocks: usize,
    width: usize,
    a: &mut [u8],
    b: &mut [u8],
    counts: &mut [u8],
    cells: &mut [Ref],
    roots: &mut [Ref],
    waiting: &mut [Ref],
    sections: &mut [Ref],
    d: &mut [u8],
    marks: &mut [u8],
    list: &mut [Ref],
    calls: &[u64],
    replies: &mut [u64],
) -> Reply
    ensures { Replayed blocks width
        (before a.old b.old counts.old cells.old roots.old waiting.old sections.old d.old marks.old list.old)
        calls.now replies.old result
        (after a.new b.new counts.new cells.new roots.new waiting.new sections.new d.new marks.new list.new)
        replies.new }
{
    replay::replay(
        blocks, width, a, b, counts, cells, roots, waiting, sections, d, marks, list, calls,
        replies,
    )
}

#[unsafe(no_mangle)]
pub extern "C" fn huwekapo_make_calls(
    blocks: usize,
    width: usize,
    a: &mut [u8],
    b: &mut [u8],
    counts: &mut [u8],
    cells: &mut [Ref],
    roots: &mut [Ref],
    waiting: &mut [Ref],
    sections: &mut [Ref],
    d: &mut [u8],
    marks: &mut [u8],
    list: &mut [Ref],
    calls: &[u64],
    replies: &mut [u64],
) -> Reply
    ensures { Batch blocks width
        (before a.old b.old counts.old cells.old roots.old waiting.old sections.old d.old marks.old list.old)
        calls.now replies.old result
        (after a.new b.new counts.new cells.new roots.new waiting.new sections.new d.new marks.new list.new)
        replies.new }
{
    replay_batch::make_calls(
        blocks, width, a, b, counts, cells, roots, waiting, sections, d, marks, list, calls,
        replies,
    )
}
