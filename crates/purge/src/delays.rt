ghost use Rattle.std.specs.Prelude.{◌≡◌, ◌<◌, true, length, IfSome, IfOk};
ghost use Rattle.listing.specs.Pairs.{pair_of, good};
ghost use Rattle.purge.specs.Entries.{Listable};

use listing::pairs::{Entry, is_good};
use refusal::Reason;
use std::alloc::{AllocError, AllocFailed, Global};
use std::fmt;

// How many lines are read at most: this program's own limit, beside that of a draft.
pub const MOST: usize = 16_384;

// Why no entries are read: what is wrong with the first malformed line, the lines counted from 1, or no memory.
#[derive(Clone, Copy, Debug, PartialEq, Eq)]
pub enum Fault {
    NoPair { line: usize },
    BadPair { line: usize },
    Repeated { line: usize, first: usize },
    TooMany,
    Memory(AllocError),
}

impl<T: Drop> From<AllocFailed<T>> for Fault {
    fn from(failed: AllocFailed<T>) -> Fault {
        Fault::Memory(AllocError::from(failed))
    }
}

impl fmt::Display for Fault {
    fn fmt<W: fmt::Write>(&self, f: &mut fmt::Formatter<W>) -> fmt::Result {
        match *self {
            Fault::NoPair { line } => write!(f, "line {line}: not a name, a space and a delay"),
            Fault::BadPair { line } => write!(
                f,
                "line {line}: refused {}: a name is 1 to 63 letters, digits or underscores and begins with no digit, a delay is -1 to 3600000",
                Reason::NotTuning.number()
            ),
            Fault::Repeated { line, first } => {
                write!(f, "line {line}: the name stands in line {first} already")
            }
            Fault::TooMany => write!(f, "more than {MOST} lines"),
            Fault::Memory(failure) => write!(f, "{failure}"),
        }
    }
}

// A line's name and delay, which one space parts.
fn read_line(line: &str) -> Option<Entry<'_>> {
    let (name, delay) = line.split_once(' ')?;
    Some(Entry {
        name: name.as_bytes(),
        delay: delay.parse().ok()?,
    })
}

// The place of the entry that has this name, if there is one.
fn place_of(name: &[u8], entries: &[Entry]) -> Option<usize>
    ensures { IfSome result (λ i. i < length entries.now) }
{
    entries.iter().position(|entry| entry.name == name)
}

// The entry of a line, behind those of the lines before it, or what is wrong with the line.
fn next_entry<'t>(words: &'t str, before: &[Entry]) -> Result<Entry<'t>, Fault>
    ensures room { IfOk result (λ e. length before.now < MOST) }
    ensures good { IfOk result (λ e. good (pair_of e) ≡ true) }
{
    if before.len() >= MOST {
        return Err(Fault::TooMany);
    }
    let line = before.len() + 1;
    let entry = read_line(words).ok_or(Fault::NoPair { line })?;
    if !is_good(&entry) {
        return Err(Fault::BadPair { line });
    }
    match place_of(entry.name, before) {
        Some(place) => Err(Fault::Repeated {
            line,
            first: place + 1,
        }),
        None => Ok(entry),
    }
}

// The entries of a text of lines, or what is wrong with it.
pub fn read_entries(heap: Global, text: &str) -> Result<Vec<Entry<'_>>, Fault>
    ensures { IfOk result (λ v. Listable v.items) }
{
    let mut entries = Vec::new(heap);
    for words in text.lines() {
        let entry = next_entry(words, entries.as_slice())?;
        entries.push(entry)?;
    }
    Ok(entries)
}
