// An input, as standard input, widened piece by piece.
ghost use Rattle.std.specs.Prelude.{◌≡◌, true, ◌≤◌, length};
ghost use Rattle.widen.specs.Meaning.{full_piece, WidenedPiece};

use history_records::RECORD;
use history_widening::OLD_RECORD;
use std::io::Read;

// The records of a full piece, its bytes, and those that it is widened to.
const RECORDS: usize = 8192;

const PIECE: usize = RECORDS * OLD_RECORD;

const WIDE_PIECE: usize = RECORDS * RECORD;

// More full pieces than any input has: together they are longer than 2^64 bytes.
const MOST: usize = 1 << 49;

// A complaint that can't be made either is let go.
pub fn complain(rt: &impl Eprint, text: &str) {
    let _ = rt.eprint(text);
}

// Writes what a piece is widened to, and nothing else, to standard output; false where a write failed.
fn hand_on(rt: &(impl Print + Eprint), piece: &[u8], text: &[u8]) -> bool
    requires { WidenedPiece piece.now text.now }
{
    let handed_on = rt.write_all(text).is_ok();
    if !handed_on {
        complain(rt, "widen: a write to standard output failed\n");
    }
    handed_on
}

// Widens a piece. Whether there may be more: it was full, and was handed on.
fn widen_piece(rt: &(impl Print + Eprint), piece: &[u8]) -> bool
    requires { length piece.now ≤ full_piece }
    ensures { result ≡ true → length piece.now ≡ full_piece }
{
    let mut out = [0u8; WIDE_PIECE];
    let n = history_widening::widen(piece, &mut out);
    hand_on(rt, piece, &out[..n]) && piece.len() == PIECE
}

// Widens the pieces of an input, until it ends or a read or a write fails.
pub fn widen_input(rt: &(impl Print + Eprint), input: &mut impl Read) {
    let mut buffer = [0u8; PIECE];
    for _ in 0..MOST {
        let Ok(n) = history_input::read_piece(input, &mut buffer) else {
            complain(rt, "widen: a read of standard input failed\n");
            return;
        };
        if !widen_piece(rt, &buffer[..n]) {
            return;
        }
    }
}
