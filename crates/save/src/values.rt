// Values by their number, and the inner values of a list, an object or the root.
ghost use Rattle.std.specs.Prelude.{◌≡◌, ◌-◌, ◌^◌, ◌<◌, ◌≤◌, length};
ghost use Rattle.steps.specs.declared.parts.Node.TheVariants.{At as at};
ghost use Rattle.steps.specs.Outline.{values, entry_at, inner_names};
ghost use Rattle.document.specs.Standing.{standing};
ghost use Rattle.save.specs.Values.{oldest, name_in, above, first_inner};

use document::store::Store;
use steps::parts::Node;

// The name of a value; a number that has no value has no name.
pub fn name_of<'s>(store: &'s Store<'_>, number: u32) -> &'s [u8]
    ensures { result.now ≡ name_in (entry_at (values (standing store.now)) number) }
{
    match store.label(number) {
        Some(label) => label.name,
        None => &[],
    }
}

// The first number that an inner value can have.
fn first_inner(holder: Node) -> u32
    requires { first_inner holder < 2 ^ 32 }
    ensures { result ≡ first_inner holder }
{
    match holder {
        Node::Root => 0,
        Node::At(number) => number + 1,
    }
}

// How many of the first `end` values stand directly in a list or object, or at the root.
pub fn inner_count(store: &Store<'_>, end: u32, holder: Node) -> u32
    requires within { end ≤ length (values (standing store.now)) }
    requires after { first_inner holder ≤ end }
    ensures { result ≡ length (inner_names (oldest end (values (standing store.now))) holder) }
{
    let inner = (first_inner(holder)..end).filter(|number| store.is_held(*number, holder));
    inner.count() as u32
}

// What holds a node; nothing holds the root but itself.
pub fn above(store: &Store<'_>, node: Node) -> Node
    ensures { result ≡ above (values (standing store.now)) node }
{
    match node {
        Node::Root => Node::Root,
        Node::At(number) => store.holder_of(number).unwrap_or(Node::Root),
    }
}
