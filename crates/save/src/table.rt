// The symbol table: each name once, where it first stands in the payload.
ghost use Rattle.std.specs.Prelude.{◌≡◌, ◌+◌, ◌≤◌, length};
ghost use Rattle.steps.specs.Outline.{values};
ghost use Rattle.document.specs.Standing.{standing};
ghost use Rattle.redbin.specs.Bytes.{words};
ghost use Rattle.redbin.specs.Canonical.{stored, strings, offsets, symbols};
ghost use Rattle.save.specs.Sinks.{full, Gained};

use crate::fields::{bytes, length, zeros};
use crate::sink::Sink;
use crate::strings::zeros_after;
use crate::symbols::Symbols;
use document::store::Store;

// Writes a name among the strings.
fn store_name<S: Sink>(sink: &mut S, name: &[u8])
    ensures { Gained S.Sink.output sink.old (stored name.now) sink.new }
{
    bytes(sink, name);
    zeros(sink, zeros_after(name));
}

// Writes the strings, and says how many names they are.
pub fn strings<S: Sink>(store: &Store<'_>, sink: &mut S) -> u32
    ensures count { result ≡ length (symbols (values (standing store.now))) }
    ensures bytes { Gained S.Sink.output sink.old (strings (symbols (values (standing store.now)))) sink.new }
{
    // Counted beside: `count()` would find all symbols a second time, which takes longest, and a chain that also writes would have
    // to write in its closure.
    let mut count = 0;
    for name in Symbols::of(store) {
        store_name(sink, name);
        count += 1;
    }
    count
}

// Writes where each name starts in the strings.
pub fn offsets<S: Sink>(store: &Store<'_>, sink: &mut S)
    requires { length (strings (symbols (values (standing store.now)))) ≤ full }
    ensures { Gained S.Sink.output sink.old (words (offsets 0 (symbols (values (standing store.now))))) sink.new }
{
    let mut offset: usize = 0;
    for name in Symbols::of(store) {
        length(sink, offset);
        offset += name.len() + zeros_after(name);
    }
}
