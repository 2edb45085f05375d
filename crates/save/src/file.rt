// The file: the header, the symbol table, the payload.
ghost use Rattle.std.specs.Prelude.{◌≡◌, ◌≤◌, [], ◌∷◌, ◌++◌, length, if◌then◌else◌, nat_lt};
ghost use Rattle.steps.specs.Outline.{values};
ghost use Rattle.document.specs.Standing.{standing};
ghost use Rattle.redbin.specs.Bytes.{words};
ghost use Rattle.redbin.specs.Layout.{letters, version};
ghost use Rattle.redbin.specs.Canonical.{symbols, strings, table};
ghost use Rattle.save.specs.Sinks.{full, Gained};
ghost use Rattle.save.specs.Sizes.{Counted as CountedSizes, file_size};

use crate::fields::{bytes, words};
use crate::payload::payload;
use crate::sink::{Counter, Sink, Strings};
use crate::table::{offsets, strings};
use document::store::Store;
use redbin::layout::{FILE_HEADER_SIZE, LETTERS, TABLE_FLAG, VERSION};

// How many names a document has, and how many bytes their strings and the payload have, as far as these can be counted.
#[derive(Clone, Copy)]
pub struct Sizes {
    pub count: u32,
    pub strings: usize,
    pub payload: usize,
}

impl Sizes {
    // Those of a document.
    pub fn of(store: &Store<'_>) -> Sizes
        ensures { CountedSizes (standing store.now) result.count result.strings result.payload }
    {
        let mut counter = Counter::new();
        let count = strings(store, &mut counter);
        let mut records = Counter::new();
        payload(store, &mut records, Strings { start: 0, end: 0 });
        Sizes {
            count,
            strings: counter.size(),
            payload: records.size(),
        }
    }

    // Whether such a file has a symbol table: without names there is none.
    fn has_table(self) -> bool
        ensures { result ≡ nat_lt 0 self.count }
    {
        self.count > 0
    }

    // How many bytes a file with such parts has.
    pub fn file_size(self) -> usize
        requires strings { self.strings ≤ full }
        requires payload { self.payload ≤ full }
        ensures { result ≡ file_size self.count self.strings self.payload }
    {
        let table = if self.has_table() {
            8 + 4 * self.count as usize + self.strings
        } else {
            0
        };
        FILE_HEADER_SIZE + table + self.payload
    }

    // The flags of such a file.
    pub fn flags(self) -> u8
        ensures { result ≡ (if nat_lt 0 self.count then 4 else 0) }
    {
        if self.has_table() { TABLE_FLAG } else { 0 }
    }
}

// Writes the header of a file.
pub fn heading<S: Sink>(sink: &mut S, flags: u8, roots: u32, payload: u32)
    ensures { Gained S.Sink.output sink.old (letters ++ (version ∷ flags ∷ words (roots ∷ payload ∷ []))) sink.new }
{
    bytes(sink, LETTERS);
    bytes(sink, &[VERSION, flags]);
    words(sink, &[roots, payload]);
}

// Writes the symbol table, whose sizes are exact. Without names there is none.
pub fn symbol_table<S: Sink>(store: &Store<'_>, sink: &mut S, sizes: Sizes)
    requires counted { sizes.count ≡ length (symbols (values (standing store.now))) }
    requires sized { sizes.strings ≡ length (strings (symbols (values (standing store.now)))) }
    requires low { sizes.strings ≤ full }
    ensures { Gained S.Sink.output sink.old (table (symbols (values (standing store.now)))) sink.new }
{
    if sizes.has_table() {
        words(sink, &[sizes.count, sizes.strings as u32]);
        offsets(store, sink);
        let _ = strings(store, sink);
    }
}
