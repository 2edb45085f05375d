// Records of values that hold others, and of shares.
ghost use Rattle.std.specs.Prelude.{◌≡◌, ℕ, ◌<◌, ◌≤◌, true, List, [], ◌∷◌, map, length, Some as some};
ghost use Rattle.steps.specs.declared.parts.Node.TheVariants.{At as at};
ghost use Rattle.steps.specs.Steps.{Name, open' as opening, share as sharing};
ghost use Rattle.steps.specs.Utf8.{no_zero};
ghost use Rattle.steps.specs.Outline.{entry_at, begun_at, inner_names};
ghost use Rattle.steps.specs.Given.{tag};
ghost use Rattle.redbin.specs.Bytes.{words};
ghost use Rattle.redbin.specs.Canonical.{index_of, symbols, record_of};
ghost use Rattle.save.specs.Sinks.{Gained};
ghost use Rattle.save.specs.Symbols.{Ready};
ghost use Rattle.save.specs.Values.{oldest, There};
ghost use Rattle.save.specs.Records.{Placed, share_words, recorded};
ghost use Rattle.save.specs.Payloads.{entries, TableReady};

use crate::fields::{length, words};
use crate::inner::Inner;
use crate::references::reference;
use crate::scalars::put;
use crate::sink::{Sink, Strings};
use crate::values::name_of;
use document::store::Store;
use redbin::form::Form;
use redbin::header::context_header;
use steps::parts::{Entry, Holder, Item, Label, Node, Share};

// What the records of a document are written from: its store, how many bytes come before the payload, and where the strings of
// the symbol table stand.
#[derive(Drop)]
pub struct Payload<'s, 'a> {
    pub store: &'s Store<'a>,
    pub start: usize,
    pub table: Strings,
}

// Writes what a share has before its reference.
fn share_start<S: Sink>(sink: &mut S, new_line: bool, share: Share)
    ensures { Gained S.Sink.output sink.old (words (share_words new_line share)) sink.new }
{
    match share {
        Share::List { kind, head } => {
            words(sink, &[Form::ShareList { kind }.header(new_line), head]);
        }
        Share::Text { kind, head } => {
            words(sink, &[Form::ShareText { kind }.header(new_line), head]);
        }
        Share::Object { owner } => words(sink, &[Form::ShareObject { owner }.header(new_line)]),
    }
}

impl Payload<'_, '_> {
    // Writes the index of a name.
    fn symbol<S: Sink>(&self, sink: &mut S, name: &[u8])
        ensures { (names : List Name) → Ready (S.Sink.output sink.old) self.now.table.start self.now.table.end names → no_zero name.now ≡ true → Gained S.Sink.output sink.old (words (index_of names name.now ∷ [])) sink.new }
    {
        let index = sink.index(self.table, name);
        length(sink, index);
    }

    // Writes the indexes of the names of an object's inner values.
    fn indexes<S: Sink>(&self, sink: &mut S, number: u32, count: u32)
        requires there { number < length (entries self.now) }
        requires counted { count ≡ length (inner_names (entries self.now) (at number)) }
        requires ready { TableReady self.now (S.Sink.output sink.old) }
        ensures { Gained S.Sink.output sink.old (words (map (index_of (symbols (entries self.now))) (inner_names (entries self.now) (at number)))) sink.new }
    {
        for value in Inner::of(self.store, number).take(count as usize) {
            self.symbol(sink, name_of(self.store, value));
        }
    }

    // Writes the record of an opened list or object.
    fn open<S: Sink>(&self, sink: &mut S, number: u32, label: Label<'_>, holder: Holder)
        requires there { number < length (entries self.now) }
        requires begun { begun_at (entries self.now) number ≡ some (opening holder) }
        requires ready { TableReady self.now (S.Sink.output sink.old) }
        ensures { (place : ℕ) → Gained S.Sink.output sink.old (record_of (entries self.now) (oldest number (entries self.now)) place (tag label.entry) (opening holder)) sink.new }
    {
        let new_line = label.new_line;
        let count = self.store.inner_count(number);
        match holder {
            Holder::List { kind, head } => {
                words(sink, &[Form::List { kind }.header(new_line), head, count]);
            }
            Holder::Object {
                owner,
                self_mark,
                class,
                on_set,
                arity,
            } => {
                let first = Form::Object { owner }.header(new_line);
                let context = context_header(self_mark);
                words(sink, &[first, class, on_set, arity, context, count]);
                self.indexes(sink, number, count);
            }
        }
    }

    // Writes the record of a share.
    fn share<S: Sink>(
        &self,
        sink: &mut S,
        number: u32,
        label: Label<'_>,
        share: Share,
        target: Node,
    )
        requires there { There (oldest number (entries self.now)) target }
        requires within { number ≤ length (entries self.now) }
        ensures { (place : ℕ) → Gained S.Sink.output sink.old (record_of (entries self.now) (oldest number (entries self.now)) place (tag label.entry) (sharing share target)) sink.new }
    {
        share_start(sink, label.new_line, share);
        reference(self.store, sink, target);
    }

    // Writes the record of a value.
    pub fn record<S: Sink>(&self, sink: &mut S, number: u32)
        requires there { number < length (entries self.now) }
        requires ready { TableReady self.now (S.Sink.output sink.old) }
        requires started { self.now.start ≤ (S.Sink.output sink.old).size }
        ensures { (place : ℕ) → Placed (S.Sink.output sink.old) self.now.start place → Gained S.Sink.output sink.old (recorded (entries self.now) number place (entry_at (entries self.now) number)) sink.new }
    {
        if let Some(Entry { label, item, .. }) = self.store.entry(number) {
            match item {
                Item::Put(value) => put(sink, self.start, label, value),
                Item::Open(holder) => self.open(sink, number, label, holder),
                Item::Share(share, target) => self.share(sink, number, label, share, target),
            }
        }
    }
}
