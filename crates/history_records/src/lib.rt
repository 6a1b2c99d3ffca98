// Records of a history: their fields, and whether those that the operation doesn't name are 0.

#![tactic(auto)]

ghost use Rattle.std.specs.Prelude.{◌≡◌, [], ◌∷◌, ◌+◌, ◌*◌, ◌≤◌, length};
ghost use Rattle.rules.specs.Heap.{max_number};
ghost use Rattle.history_records.specs.Records.{wide, record_length, number, fields_at, are_zero, unnamed};

// The fields of a record, by document 01's names: the operation, the roots d and s, byte 3, the cell number c and the size.
#[derive(Clone, Copy)]
pub struct Fields {
    pub operation: usize,
    pub d: usize,
    pub s: usize,
    pub unused: usize,
    pub c: usize,
    pub size: usize,
}

// The bytes of a record.
pub const RECORD: usize = 12;

// The number that four bytes make, from place `at` on.
fn number_at(bytes: &[u8], at: usize) -> usize
    requires { at + wide.number_bytes ≤ length bytes.now }
    ensures { (result ≡ number wide.number_bytes bytes.now at) × (result ≤ max_number) }
{
    u32::from_le_bytes([bytes[at], bytes[at + 1], bytes[at + 2], bytes[at + 3]]) as usize
}

// Record number i. Its size is a number that a cell holds.
pub fn fields_at(bytes: &[u8], i: usize) -> Fields
    requires { record_length wide * (i + 1) ≤ length bytes.now }
    ensures { (result ≡ fields_at wide bytes.now (record_length wide * i)) × (result.size ≤ max_number) }
{
    let at = RECORD * i;
    Fields {
        operation: bytes[at] as usize,
        d: bytes[at + 1] as usize,
        s: bytes[at + 2] as usize,
        unused: bytes[at + 3] as usize,
        c: number_at(bytes, at + 4),
        size: number_at(bytes, at + 8),
    }
}

// Whether four numbers are all 0.
fn are_zero(w: usize, x: usize, y: usize, z: usize) -> bool
    ensures { result ≡ are_zero (w ∷ x ∷ y ∷ z ∷ []) }
{
    w == 0 && x == 0 && y == 0 && z == 0
}

// Whether the fields that the operation doesn't name are 0.
pub fn unnamed_are_zero(f: Fields) -> bool
    ensures { result ≡ are_zero (unnamed f) }
{
    if f.unused != 0 {
        return false;
    }
    // The arms of 3 and 4, and of 1 and 7, stay apart: a line for each operation, as in document 01.
    match f.operation {
        1 => are_zero(f.s, f.c, 0, 0),
        2 => are_zero(f.c, f.size, 0, 0),
        3 => are_zero(f.size, 0, 0, 0),
        4 => are_zero(f.size, 0, 0, 0),
        5 => are_zero(f.s, f.c, f.size, 0),
        6 => are_zero(f.d, f.s, f.c, f.size),
        7 => are_zero(f.s, f.c, 0, 0),
        8 => are_zero(f.s, 0, 0, 0),
        _ => true,
    }
}
