// The inner values of an opened value.
ghost use Rattle.std.specs.Prelude.{◌≡◌, ◌+◌, ◌-◌, ◌<◌, length};
ghost use Rattle.std.specs.Iterator.{YieldsFirst, item_count};
ghost use Rattle.steps.specs.declared.parts.Node.TheVariants.{At as at};
ghost use Rattle.steps.specs.Outline.{values};
ghost use Rattle.document.specs.Standing.{standing};
ghost use Rattle.save.specs.Values.{inner_of};
ghost use Rattle.save.specs.Inners.{inner_left};

use document::store::Store;
use std::ops::Range;
use steps::parts::Node;

// The values of these numbers that stand directly in this list or object.
// A type of its own, since the closure of a filter in a field has no type that can be named.
#[derive(Drop)]
pub struct Inner<'s, 'a> {
    store: &'s Store<'a>,
    holder: Node,
    numbers: Range<u32>,
}

impl<'s, 'a> Inner<'s, 'a> {
    // All inner values. A user takes as many as there are, so that nobody looks on behind the last.
    pub fn of(store: &'s Store<'a>, number: u32) -> Inner<'s, 'a>
        requires { number < length (values (standing store.now)) }
        ensures { inner_left result ≡ inner_of (values (standing store.now)) (at number) (number + 1) (length (values (standing store.now)) - (number + 1)) }
    {
        Inner {
            store,
            holder: Node::At(number),
            numbers: number + 1..store.count(),
        }
    }
}

impl Iterator for Inner<'_, '_> {
    type Item = u32;

    ghost remaining = { item_count inner_left };

    ghost next_gives = { YieldsFirst inner_left };

    #[inline(always)]
    fn next(&mut self) -> Option<u32> {
        let store = self.store;
        let holder = self.holder;
        self.numbers.find(|number| store.is_held(*number, holder))
    }
}
