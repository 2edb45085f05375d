// Texts.
ghost use Rattle.std.specs.Prelude.{◌≡◌, ◌+◌, ◌≤◌, true};
ghost use Rattle.steps.specs.Given.{tag};
ghost use Rattle.steps.specs.Law.{points, used, usable, content_ok};
ghost use Rattle.document.specs.Standing.{standing, memory_lent};
ghost use Rattle.redbin.specs.Bytes.{fill};
ghost use Rattle.redbin.specs.Reading.{add, add_text};
ghost use Rattle.load.specs.Filled.{Ready, Added, Fills};
ghost use Rattle.redbin.specs.Layout.{width};
ghost use Rattle.load.specs.Runs.{entries};
ghost use Rattle.load.specs.Texts.{Decoded, decoded};

use crate::encoded::Encoded;
use crate::filler::Filler;
use crate::runs::{number, span};
use crate::start::Start;
use document::store::Store;
use redbin::layout::{CODEPOINT_END, TEXT_LENGTH_END};
use redbin::width::Width;
use refusal::{Part, Reason, Refusal};
use steps::parts::TextKind;

// How many zeros stand behind so many bytes.
fn fill(size: usize) -> u32
    ensures { result ≡ fill 4 size }
{
    ((4 - size % 4) % 4) as u32
}

// Writes the codepoints of a text into the free memory of a store.
fn decode(store: &mut Store<'_>, text: Encoded<'_>)
    requires { used (standing store.old) points + text.count ≤ usable (memory_lent store.old) points }
    ensures { Decoded store.old (entries (width text.entry.unit) text.entry.count text.entry.bytes.now) store.new }
{
    let codepoints = text.bytes.chunks_exact(text.unit.bytes() as usize);
    for (i, codepoint) in (0..text.count).zip(codepoints) {
        store.write_codepoint(i, number(codepoint));
    }
}

// Puts a text whose codepoints are these.
fn add_decoded(store: &mut Store<'_>, start: Start<'_>, text: Encoded<'_>) -> Result<(), Refusal>
    requires ready { Ready store.old (tag start.label).name }
    requires allowed { content_ok (decoded text) ≡ true }
    ensures { Added store.old (λ c. add c start.entry.place (tag start.entry.label) (decoded text.entry)) result store.new }
{
    if !store.has_room(text.count as usize, start.label.name.len()) {
        return Err(Reason::NoMemory.at(Part::Record, start.place));
    }
    decode(store, text);
    store.add_text(start.label, text.kind, text.head, text.count);
    Ok(())
}

impl Filler<'_, '_, '_> {
    // A text's head, length, codepoints and the zeros behind them.
    pub fn add_text(&mut self, start: Start<'_>, kind: TextKind, unit: Width) -> Result<(), Refusal>
        requires { Ready self.old.store.now (tag start.label).name }
        ensures { Fills (λ c. add_text c start.entry.place (tag start.entry.label) kind (width unit)) self.old result self.new }
    {
        let part = Part::Record;
        let reader = &mut self.reader;
        let head = reader.word(part)?;
        let count = reader.number(part, TEXT_LENGTH_END, Reason::Large)?;
        let bytes = reader.run(part, unit, CODEPOINT_END, Reason::BadContent, count)?;
        reader.run(part, Width::One, 1, Reason::BadContent, fill(bytes.len()))?;
        let text = Encoded {
            kind,
            head,
            unit,
            count,
            bytes,
        };
        add_decoded(self.store, start, text)
    }
}
