// The names of a document in the order in which their indexes stand in the payload: object after object, and in each by its
// inner values.
ghost use Rattle.std.specs.Prelude.{◌≡◌, ◌≤◌, length};
ghost use Rattle.steps.specs.Outline.{values};
ghost use Rattle.document.specs.Standing.{standing};
ghost use Rattle.save.specs.Names.{names_at, in_order};

use crate::inner::Inner;
use crate::values::name_of;
use document::store::Store;
use std::iter::Take;
use std::ops::Range;

// The names of the inner values of an object, and those of later objects.
// A type of its own, since a function cannot answer `impl Iterator` here.
#[derive(Drop)]
pub struct Names<'s, 'a> {
    store: &'s Store<'a>,
    inner: Option<Take<Inner<'s, 'a>>>,
    later: Range<u32>,
    ghost within: { later.end ≤ length (values (standing store.now)) },
}

// How many names the record of a value has the indexes of.
pub fn name_count(store: &Store<'_>, number: u32) -> u32
    ensures { result ≡ length (names_at (values (standing store.now)) number) }
{
    if store.is_object(number) {
        store.inner_count(number)
    } else {
        0
    }
}

impl<'s, 'a> Names<'s, 'a> {
    ghost use Rattle.save.specs.Left.{names_left};

    // All names.
    pub fn of(store: &'s Store<'a>) -> Names<'s, 'a>
        ensures { names_left result ≡ in_order (values (standing store.now)) }
    {
        Names {
            store,
            inner: None,
            later: 0..store.count(),
        }
    }
}

impl<'s> Iterator for Names<'s, '_> {
    type Item = &'s [u8];

    ghost use Rattle.std.specs.Iterator.{YieldsFirstRef, item_count};
    ghost use Rattle.save.specs.Left.{names_left};

    ghost remaining = { item_count names_left };

    ghost next_gives = { YieldsFirstRef names_left };

    fn next(&mut self) -> Option<&'s [u8]> {
        loop {
            match &mut self.inner {
                Some(inner) => {
                    if let Some(value) = inner.next() {
                        return Some(name_of(self.store, value));
                    }
                    self.inner = None;
                }
                None => {
                    let object = self.later.next()?;
                    let count = name_count(self.store, object) as usize;
                    self.inner = Some(Inner::of(self.store, object).take(count));
                }
            }
        }
    }
}
