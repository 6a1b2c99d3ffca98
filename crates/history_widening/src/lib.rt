// Old histories, of eight-byte records, in the form of today. What a widened history comes to is stated in specs/Claims.antt.

#![tactic(auto)]

ghost use Rattle.std.specs.Prelude.{◌+◌, ◌*◌, ◌≤◌, length};
ghost use Rattle.text.specs.Text.{Put};
ghost use Rattle.history_records.specs.Records.{record_length, wide, old};
ghost use Rattle.history_widening.specs.Widening.{widened_at, Widens};

use history_records::RECORD;

// The bytes of an old record.
pub const OLD_RECORD: usize = 8;

// Writes record number i in its place. The place behind it.
fn widen_record(bytes: &[u8], out: &mut [u8], i: usize) -> usize
    requires { (record_length old * (i + 1) ≤ length bytes.now) × (record_length wide * (i + 1) ≤ length out.old) }
    ensures { Put out.old (record_length wide * i) (widened_at bytes.now (record_length old * i)) out.new result }
{
    let at = OLD_RECORD * i;
    let twelve = [
        bytes[at],
        bytes[at + 1],
        bytes[at + 2],
        bytes[at + 3],
        bytes[at + 4],
        bytes[at + 5],
        0,
        0,
        bytes[at + 6],
        bytes[at + 7],
        0,
        0,
    ];
    text::put_text(out, RECORD * i, &twelve)
}

// Writes the bytes of an old history, or of a piece of it that begins with a record, to the start of `out`: whole records in the form of
// today, and a tail as it is. How many were written: none where `out` is too short for all.
pub fn widen(bytes: &[u8], out: &mut [u8]) -> usize
    ensures { Widens bytes.now out.old out.new result }
{
    let records = bytes.len() / OLD_RECORD;
    if out.len() < bytes.len() || out.len() - bytes.len() < (RECORD - OLD_RECORD) * records {
        return 0;
    }
    for i in 0..records {
        widen_record(bytes, out, i);
    }
    let tail = OLD_RECORD * records;
    text::put_text(out, RECORD * records, &bytes[tail..])
}
