// Names of values in objects: 1 to 255 bytes of well-formed UTF-8, none of them zero.
ghost use Rattle.std.specs.Prelude.{◌≡◌, ◌&&◌, length};
ghost use Rattle.steps.specs.Utf8.{utf8, one, two, three, four, lawful_name, no_zero};

use crate::limits::LONGEST_NAME;

fn is_one(a: u8) -> bool
    ensures { result ≡ one a }
{
    a <= 0x7f
}

fn is_two(a: u8, b: u8) -> bool
    ensures { result ≡ two a b }
{
    matches!((a, b), (0xc2..=0xdf, 0x80..=0xbf))
}

fn is_three(a: u8, b: u8, c: u8) -> bool
    ensures { result ≡ three a b c }
{
    match (a, b, c) {
        (0xe0, 0xa0..=0xbf, 0x80..=0xbf) => true,
        (0xe1..=0xec, 0x80..=0xbf, 0x80..=0xbf) => true,
        (0xed, 0x80..=0x9f, 0x80..=0xbf) => true,
        (0xee..=0xef, 0x80..=0xbf, 0x80..=0xbf) => true,
        _ => false,
    }
}

fn is_four(a: u8, b: u8, c: u8, d: u8) -> bool
    ensures { result ≡ four a b c d }
{
    match (a, b, c, d) {
        (0xf0, 0x90..=0xbf, 0x80..=0xbf, 0x80..=0xbf) => true,
        (0xf1..=0xf3, 0x80..=0xbf, 0x80..=0xbf, 0x80..=0xbf) => true,
        (0xf4, 0x80..=0x8f, 0x80..=0xbf, 0x80..=0xbf) => true,
        _ => false,
    }
}

// Whether the bytes are well-formed UTF-8. The slice is taken apart by patterns, as this project does; no index is counted.
fn is_text(bytes: &[u8]) -> bool
    ensures { result ≡ utf8 bytes.now }
{
    let mut left = bytes;
    loop {
        left = match left {
            [] => return true,
            [a, rest @ ..] if is_one(*a) => rest,
            [a, b, rest @ ..] if is_two(*a, *b) => rest,
            [a, b, c, rest @ ..] if is_three(*a, *b, *c) => rest,
            [a, b, c, d, rest @ ..] if is_four(*a, *b, *c, *d) => rest,
            _ => return false,
        };
    }
}

// Whether none of the bytes is zero.
fn has_no_zero(bytes: &[u8]) -> bool
    ensures { result ≡ no_zero bytes.now }
{
    bytes.iter().all(|b| *b > 0)
}

// Whether a value in an object may have this name.
pub fn is_name(bytes: &[u8]) -> bool
    ensures { result ≡ lawful_name bytes.now }
{
    !bytes.is_empty() && bytes.len() <= LONGEST_NAME && has_no_zero(bytes) && is_text(bytes)
}
