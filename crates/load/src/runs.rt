// Runs of numbers, each of one, two or four bytes.
ghost use Rattle.std.specs.Prelude.{◌≡◌, ◌*◌, ◌/◌, length, take};
ghost use Rattle.redbin.specs.Bytes.{number};
ghost use Rattle.redbin.specs.Layout.{width};
ghost use Rattle.load.specs.Runs.{Sought};

use redbin::width::Width;

// How many bytes so many numbers have.
pub fn span(unit: Width, n: u32) -> usize
    ensures { result ≡ n * width unit }
{
    n as usize * unit.bytes() as usize
}

// The number that the first four bytes stand for, or all of them where there are fewer. Any length is taken, so that a width is
// no parameter; `word` is apart, since its four bytes need no match.
pub fn number(bytes: &[u8]) -> u32
    ensures { result ≡ number (take 4 bytes.now) }
{
    match *bytes {
        [] => 0,
        [a] => u32::from(a),
        [a, b] => u32::from_le_bytes([a, b, 0, 0]),
        [a, b, c] => u32::from_le_bytes([a, b, c, 0]),
        [a, b, c, d, ..] => u32::from_le_bytes([a, b, c, d]),
    }
}

// The number of four bytes.
#[tactic(auto, using(crate::proofs::Fields::le_four))]
pub fn word(bytes: &[u8; 4]) -> u32
    ensures { result ≡ number bytes.now }
{
    u32::from_le_bytes(*bytes)
}

// Of the numbers in some bytes, the index of the first that is not below a limit.
pub fn first_bad(bytes: &[u8], unit: Width, end: u64) -> Option<usize>
    ensures { Sought (width unit) end (length bytes.now / width unit) bytes.now result }
{
    bytes
        .chunks_exact(unit.bytes() as usize)
        .position(|entry| number(entry) as u64 >= end)
}
