// The symbols of a document: its names, each once, where it first stands.
ghost use Rattle.std.specs.Prelude.{◌≡◌, ◌+◌, ◌^◌, ◌<◌, ◌≤◌, length, take};
ghost use Rattle.std.specs.Iterator.Adapters.{enumerate_source, enumerate_count};
ghost use Rattle.steps.specs.Outline.{values, entry_at};
ghost use Rattle.document.specs.Standing.{standing};
ghost use Rattle.redbin.specs.Bytes.{same};
ghost use Rattle.redbin.specs.Canonical.{symbols};
ghost use Rattle.save.specs.Values.{name_in};
ghost use Rattle.save.specs.Names.{listed, names_at, in_order};
ghost use Rattle.save.specs.Left.{names_left};

use crate::inner::Inner;
use crate::names::{Names, name_count};
use crate::values::name_of;
use document::store::Store;
use std::iter::Enumerate;

// The names that are still to come, each with how many stand before it.
// A type of its own, since a function cannot answer `impl Iterator` here.
#[derive(Drop)]
pub struct Symbols<'s, 'a> {
    store: &'s Store<'a>,
    names: Enumerate<Names<'s, 'a>>,
    ghost fits: { enumerate_count names + length (names_left (enumerate_source names)) < 2 ^ 64 },
}

// Whether a value has this name.
#[inline(always)]
fn is_named(store: &Store<'_>, value: u32, name: &[u8]) -> bool
    ensures { result ≡ same (name_in (entry_at (values (standing store.now)) value)) name.now }
{
    name_of(store, value) == name
}

// Whether a name stands among the first names of a value.
fn is_among(store: &Store<'_>, object: u32, count: usize, name: &[u8]) -> bool
    requires there { object < length (values (standing store.now)) }
    requires within { count ≤ length (names_at (values (standing store.now)) object) }
    ensures { result ≡ listed name.now (take count (names_at (values (standing store.now)) object)) }
{
    Inner::of(store, object)
        .take(count)
        .any(|value| is_named(store, value, name))
}

// Whether a name stands among the first names. It goes from object to object itself: `Names` would keep its place in memory from
// one name to the next, and this is where most of a save's time goes.
fn is_listed(store: &Store<'_>, end: usize, name: &[u8]) -> bool
    ensures { result ≡ listed name.now (take end (in_order (values (standing store.now)))) }
{
    let mut left = end;
    for object in 0..store.count() {
        if left == 0 {
            return false;
        }
        let count = left.min(name_count(store, object) as usize);
        if count == 0 {
            continue;
        }
        if is_among(store, object, count, name) {
            return true;
        }
        left -= count;
    }
    false
}

impl<'s, 'a> Symbols<'s, 'a> {
    ghost use Rattle.save.specs.SymbolsLeft.{symbols_left};

    // All symbols.
    pub fn of(store: &'s Store<'a>) -> Symbols<'s, 'a>
        ensures { symbols_left result ≡ symbols (values (standing store.now)) }
    {
        Symbols {
            store,
            names: Names::of(store).enumerate(),
        }
    }
}

impl<'s> Iterator for Symbols<'s, '_> {
    type Item = &'s [u8];

    ghost use Rattle.std.specs.Iterator.{YieldsFirstRef, item_count};
    ghost use Rattle.save.specs.SymbolsLeft.{symbols_left};

    ghost remaining = { item_count symbols_left };

    ghost next_gives = { YieldsFirstRef symbols_left };

    fn next(&mut self) -> Option<&'s [u8]> {
        let store = self.store;
        let (_, name) = self
            .names
            .find(|(before, name)| !is_listed(store, *before, name))?;
        Some(name)
    }
}
