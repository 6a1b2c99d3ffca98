// Reading a sentence of request U11 back: fixed byte strings and numbers of 32 bits.

#![tactic(auto)]

ghost use Rattle.std.specs.Prelude.{◌≡◌, ◌+◌, ◌-◌, ◌*◌, ◌^◌, ◌<◌, ◌≤◌, length, SomeIff};
ghost use Rattle.std.specs.Option.{unwrap_or};
ghost use Rattle.std.proofs.Math.Option.{some};
ghost use Rattle.rules_output.specs.Sentence.{ended, number_from};
ghost use Rattle.walk_reader.specs.Reader.{small_back, reading, reading_of, cells_after, limited, small_at, link_at, links_in, counted, links_found, seen, seen_in};

// What a text says: kind 0 is no sentence, 1 a chain, 2 that no root reaches the block, 3 a chain of more links
// than there was room for. A chain has its root, how many links were followed, and the block. It is what C
// reads, so that its kind is a number.
#[repr(C)]
#[derive(Clone, Copy)]
pub struct Reading {
    pub kind: usize,
    pub root: usize,
    pub links: usize,
    pub block: usize,
}

// A number with one digit more, if it is below 2 ^ 32.
fn with_digit(value: u32, digit: u8) -> Option<u32>
    requires { 48 ≤ digit }
    ensures { SomeIff result (value * 10 + (digit - 48) < 2 ^ 32) (value * 10 + (digit - 48)) }
{
    value.checked_mul(10)?.checked_add(u32::from(digit - b'0'))
}

// The number whose digits stand in front of a text, if it is below 2 ^ 32, and what stands behind it.
fn digits_at(text: &[u8]) -> Option<(u32, &[u8])>
    ensures { seen_in result ≡ limited (some (number_from 0 text.now)) }
{
    let mut value = 0u32;
    let mut rest = text;
    while let [digit @ b'0'..=b'9', after @ ..] = rest {
        value = with_digit(value, *digit)?;
        rest = after;
    }
    Some((value, rest))
}

// The number in front of a text, with no leading zeros and below 2 ^ 32, and what stands behind it.
fn number_at(text: &[u8]) -> Option<(u32, &[u8])>
    ensures { seen_in result ≡ small_at text.now }
{
    let [first, rest @ ..] = text else {
        return None;
    };
    if *first == b'0' {
        Some((0, rest))
    } else if first.is_ascii_digit() {
        digits_at(text)
    } else {
        None
    }
}

// The number in front of a text, where a line end follows it and nothing else.
fn ending_at(text: &[u8]) -> Option<u32>
    ensures { seen result ≡ ended (small_at text.now) }
{
    match number_at(text)? {
        (value, [b'\n']) => Some(value),
        _ => None,
    }
}

// The cell of the link in front of a text, and what stands behind it.
fn link_at(text: &[u8]) -> Option<(u32, &[u8])>
    ensures { seen_in result ≡ link_at text.now }
{
    number_at(text.strip_prefix(b" cell ")?)
}

// What stands behind the root's number: how many links, and the block.
fn rest_at(text: &[u8]) -> Option<(usize, u32)>
    ensures { seen result ≡ counted (links_in text.now) }
{
    let mut links = 0;
    let mut rest = text;
    while let Some((_, after)) = link_at(rest) {
        rest = after;
        links += 1;
    }
    let block = ending_at(rest.strip_prefix(b" block ")?)?;
    Some((links, block))
}

// Writes the cells of the links that stand in front of a text.
fn put_links(text: &[u8], cells: &mut [u32])
    requires { length cells.old ≡ length (links_found (links_in text.now)) }
    ensures { cells.new ≡ links_found (links_in text.now) }
{
    let mut rest = text;
    for cell in cells.iter_mut() {
        let Some((value, after)) = link_at(rest) else {
            return;
        };
        *cell = value;
        rest = after;
    }
}

// What a text says, if it is a sentence.
fn sentence_in(text: &[u8], cells: &mut [u32]) -> Option<Reading>
    ensures { (unwrap_or result (reading 0 0 0 0) ≡ reading_of (length cells.old) (small_back text.now))
        × (cells.new ≡ cells_after (small_back text.now) cells.old) }
{
    if let Some(rest) = text.strip_prefix(b"no root reaches block ") {
        let block = ending_at(rest)? as usize;
        return Some(Reading {
            kind: 2,
            root: 0,
            links: 0,
            block,
        });
    }
    let (root, rest) = number_at(text.strip_prefix(b"root ")?)?;
    let (links, block) = rest_at(rest)?;
    let chain = Reading {
        kind: 1,
        root: root as usize,
        links,
        block: block as usize,
    };
    if cells.len() < links {
        return Some(Reading { kind: 3, ..chain });
    }
    put_links(rest, &mut cells[..links]);
    Some(chain)
}

// Reads a text. The cells of a chain are written to `cells`, where there is room for all; of any other text
// nothing is written.
pub fn read_reason(text: &[u8], cells: &mut [u32]) -> Reading
    ensures { (result ≡ reading_of (length cells.old) (small_back text.now))
        × (cells.new ≡ cells_after (small_back text.now) cells.old) }
{
    sentence_in(text, cells).unwrap_or(Reading {
        kind: 0,
        root: 0,
        links: 0,
        block: 0,
    })
}
