// Entries read from an input, as standard input: four little-endian words of eight bytes each.
ghost use Rattle.std.specs.Prelude.{◌+◌, ◌≤◌};

use calls_entries::Entry;
use std::io::Read;

// The word at a place.
fn word(bytes: &[u8; 32], at: usize) -> usize
    requires { at + 8 ≤ 32 }
{
    usize::from_le_bytes(bytes[at..at + 8].try_into().unwrap())
}

// Reads an entry, until it is whole, the input ends or a read fails, from byte `start` of its 32 on; a header is an entry without the eight bytes of its kind.
pub fn read_entry(input: &mut impl Read, start: usize) -> Entry
    requires { start ≤ 32 }
{
    let mut bytes = [0u8; 32];
    // A read that fails ends the entry, as the end of the input does.
    let length = history_input::read_piece(input, &mut bytes[start..]).unwrap_or_else(
        |failed| failed.length,
    );
    Entry {
        bytes: length,
        kind: word(&bytes, 0),
        x: word(&bytes, 8),
        y: word(&bytes, 16),
        z: word(&bytes, 24),
    }
}
