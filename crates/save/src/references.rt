// References: the path of inner places from the root to a value.
ghost use Rattle.std.specs.Prelude.{◌≡◌, ◌≤◌, [], length};
ghost use Rattle.steps.specs.Outline.{values, path_to};
ghost use Rattle.document.specs.Standing.{standing};
ghost use Rattle.redbin.specs.Bytes.{words};
ghost use Rattle.redbin.specs.Canonical.{reference};
ghost use Rattle.save.specs.Sinks.{Gained};
ghost use Rattle.save.specs.Values.{first_inner, There};

use crate::fields::words;
use crate::sink::Sink;
use crate::values::{above, inner_count};
use document::store::Store;
use redbin::layout::REFERENCE_HEADER;
use steps::parts::Node;

// How many inner places lead from the root to a node.
fn depth(store: &Store<'_>, node: Node) -> u32
    requires { There (values (standing store.now)) node }
    ensures length { result ≡ length (path_to (values (standing store.now)) node) }
    ensures low { result ≤ first_inner node }
{
    match node {
        Node::Root => 0,
        Node::At(_) => depth(store, above(store, node)) + 1,
    }
}

// Writes the inner places that lead from the root to a node.
fn path<S: Sink>(store: &Store<'_>, sink: &mut S, node: Node)
    requires { There (values (standing store.now)) node }
    ensures { Gained S.Sink.output sink.old (words (path_to (values (standing store.now)) node)) sink.new }
{
    if let Node::At(number) = node {
        let holder = above(store, node);
        path(store, sink, holder);
        words(sink, &[inner_count(store, number, holder)]);
    }
}

// Writes a reference to a node.
pub fn reference<S: Sink>(store: &Store<'_>, sink: &mut S, target: Node)
    requires { There (values (standing store.now)) target }
    ensures { Gained S.Sink.output sink.old (words (reference (path_to (values (standing store.now)) target))) sink.new }
{
    words(sink, &[REFERENCE_HEADER, depth(store, target)]);
    path(store, sink, target);
}
