// The payload: the records of all values, left to right.
ghost use Rattle.std.specs.Prelude.{◌≤◌};
ghost use Rattle.steps.specs.Outline.{values};
ghost use Rattle.document.specs.Standing.{standing};
ghost use Rattle.redbin.specs.Canonical.{symbols, payload};
ghost use Rattle.save.specs.Sinks.{full, Gained};
ghost use Rattle.save.specs.Symbols.{Ready};

use crate::records::Payload;
use crate::sink::{Sink, Strings};
use document::store::Store;

// Writes the payload.
pub fn payload<S: Sink>(store: &Store<'_>, sink: &mut S, table: Strings)
    requires ready { Ready (S.Sink.output sink.old) table.start table.end (symbols (values (standing store.now))) }
    requires low { (S.Sink.output sink.old).size ≤ full }
    ensures { Gained S.Sink.output sink.old (payload (values (standing store.now)) (standing store.now)) sink.new }
{
    let start = sink.size();
    let payload = Payload {
        store,
        start,
        table,
    };
    for number in 0..store.count() {
        payload.record(sink, number);
    }
}
