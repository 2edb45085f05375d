// Paths to the values begun so far.
ghost use Rattle.std.specs.Prelude.{◌≡◌, map};
ghost use Rattle.steps.specs.Outline.{values, inner, nth, through, follow};
ghost use Rattle.redbin.specs.Bytes.{number};
ghost use Rattle.redbin.specs.Reading.{target_of};
ghost use Rattle.document.specs.Standing.{standing};

use crate::runs::word;
use document::store::Store;
use steps::parts::{Entry, Family, Item, Node};

// The number of the inner value at an index.
fn inner_at(store: &Store<'_>, holder: Node, index: u32) -> Option<u32>
    ensures { result ≡ nth (inner (values (standing store.now)) holder) index }
{
    (0..store.count())
        .filter(|number| store.is_held(*number, holder))
        .nth(index as usize)
}

// From a shared value to its target; any other value is its own.
#[tactic(auto, using(crate::proofs::Walked::begun_in))]
fn through(store: &Store<'_>, number: u32) -> Node
    ensures { result ≡ through (values (standing store.now)) number }
{
    match store.entry(number) {
        Some(
            Entry {
                item: Item::Share(_, target),
                ..
            },
        ) => target,
        _ => Node::At(number),
    }
}

// Where a path of offsets leads from the root.
pub fn follow(store: &Store<'_>, path: &[[u8; 4]]) -> Option<Node>
    ensures { result ≡ follow (values (standing store.now)) (map number path.now) }
{
    let mut node = Node::Root;
    for offset in path {
        let number = inner_at(store, node, word(offset))?;
        node = through(store, number);
    }
    Some(node)
}

// Where a path leads that a share of this family has.
pub fn target_of(store: &Store<'_>, family: Family, path: &[[u8; 4]]) -> Option<Node>
    ensures { result ≡ target_of (standing store.now) family (map number path.now) }
{
    let node = follow(store, path)?;
    store.suits(node, family).then_some(node)
}
