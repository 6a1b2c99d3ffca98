// Marks written while a collection in small steps is open (request U8): of a reference, of what the cells of
// an object name, and of an object that is freed.

#![tactic(auto)]

ghost use Rattle.std.specs.Prelude.{◌≡◌, ◌+◌, ◌*◌, ◌<◌, ◌≤◌, length};
ghost use Rattle.bitmap.specs.Bit.{set_bit};
ghost use Rattle.step_marks.specs.Marks.{mark_one, mark_named, freed_marks, mark_touched};

use map_objects::names::named_block;
use types::Ref;

// Bit i of the map becomes 1: by one `or`, where `bitmap::set_bit` takes the old bit out first.
pub fn set_mark(marks: &mut [u8], i: usize)
    requires { i < 8 * length marks.old }
    ensures { marks.new ≡ set_bit marks.old i 1 }
{
    marks[i / 8] |= 1 << (i % 8);
}

// The object that v names, if any, is marked.
pub fn mark_one(blocks: usize, marks: &mut [u8], v: Ref)
    requires { blocks ≤ 8 * length marks.old }
    ensures { marks.new ≡ mark_one blocks marks.old v }
{
    if let Some(block) = named_block(blocks, v) {
        set_mark(marks, block);
    }
}

// The object at block i is freed, n of whose cells name others, and these still stand. Where a collection is
// open (`shade`) it leaves the map, and what they name is marked.
pub fn shade_freed(blocks: usize, cells: &[Ref], marks: &mut [u8], i: usize, n: usize, shade: bool)
    requires { (blocks ≤ 8 * length marks.old) × (i < blocks) × (4 * i + n ≤ length cells.now) }
    ensures { marks.new ≡ freed_marks shade blocks marks.old cells.now i n }
{
    if shade {
        bitmap::set_bit(marks, i, 0);
        for &v in &cells[4 * i..4 * i + n] {
            mark_one(blocks, marks, v);
        }
    }
}

// A store marks what is unmarked among its owner, old and new objects.
pub fn mark_touched(blocks: usize, marks: &mut [u8], owner: Ref, old: Ref, new: Ref)
    requires { blocks ≤ 8 * length marks.old }
    ensures { marks.new ≡ mark_touched blocks marks.old owner old new }
{
    mark_one(blocks, marks, owner);
    mark_one(blocks, marks, old);
    mark_one(blocks, marks, new);
}
