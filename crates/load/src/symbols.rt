// Symbols: the names that a file has before its records.
ghost use Rattle.std.specs.Prelude.{◌≡◌};
ghost use Rattle.redbin.specs.Reading.{name_at};
ghost use Rattle.load.specs.Names.{bytes_in, Zero};

use steps::name::is_name;

pub mod table;

// The name and the zero behind it have at most so many bytes.
const NAME_END: usize = 256;

// The index of the first zero among the first 256 bytes.
fn first_zero(bytes: &[u8]) -> Option<usize>
    ensures { Zero 256 bytes.now result }
{
    bytes.iter().take(NAME_END).position(|b| *b == 0)
}

// The name to which an offset leads in the strings.
pub fn name_at<'s>(strings: &'s [u8], offset: u32) -> Option<&'s [u8]>
    ensures { bytes_in result ≡ name_at strings.now offset }
{
    let rest = strings.get(offset as usize..)?;
    let end = first_zero(rest)?;
    let name = &rest[..end];
    if is_name(name) { Some(name) } else { None }
}

// The offsets of a file's symbols, each a number of four bytes, and the strings to which they lead.
#[derive(Clone, Copy)]
pub struct Symbols<'f> {
    pub offsets: &'f [[u8; 4]],
    pub strings: &'f [u8],
}
