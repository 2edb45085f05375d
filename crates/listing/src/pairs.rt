ghost use Rattle.std.specs.Prelude.{◌≡◌};
ghost use Rattle.std.specs.List.{list_all};
ghost use Rattle.listing.specs.Pairs.{pair_of, good, good_name, good_delay, name_byte};

// A name and a delay in milliseconds, -1 for never. No `Option`: it is the document's own integer, and any is taken and judged.
#[derive(Clone, Copy)]
pub struct Entry<'a> {
    pub name: &'a [u8],
    pub delay: i32,
}

// An ASCII letter, digit or underscore.
fn is_name_byte(c: u8) -> bool
    ensures { result ≡ name_byte c }
{
    c.is_ascii_alphanumeric() || c == b'_'
}

fn are_name_bytes(bytes: &[u8]) -> bool
    ensures { result ≡ list_all name_byte bytes.now }
{
    bytes.iter().all(|c| is_name_byte(*c))
}

// From -1, never, to an hour.
fn is_good_delay(delay: i32) -> bool
    ensures { result ≡ good_delay delay }
{
    (-1..=3_600_000).contains(&delay)
}

// 1 to 63 ASCII letters, digits or underscores, and no digit first.
pub fn is_good_name(name: &[u8]) -> bool
    ensures { result ≡ good_name name.now }
{
    match name {
        [] | [b'0'..=b'9', ..] => false,
        _ => name.len() <= 63 && are_name_bytes(name),
    }
}

// A good name, and a delay from -1 to an hour.
pub fn is_good(entry: &Entry<'_>) -> bool
    ensures { result ≡ good (pair_of entry.now) }
{
    is_good_name(entry.name) && is_good_delay(entry.delay)
}
