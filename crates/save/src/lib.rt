// Saving: the canonical file of a document that stands in a store.
#![tactic(auto)]

ghost use Rattle.std.specs.Prelude.{◌≡◌, ◌≤◌, length};
ghost use Rattle.document.specs.Standing.{standing};
ghost use Rattle.redbin.specs.Layout.{largest_file};
ghost use Rattle.redbin.specs.Canonical.{canonical};
ghost use Rattle.save.specs.Saves.{with_file, Saved};
ghost use Rattle.save.specs.Sizes.{Exact};

use document::store::Store;
use file::{Sizes, heading, symbol_table};
use payload::payload;
use redbin::layout::LARGEST_FILE;
use refusal::Reason;
use sink::{Sink, Strings, Writer};
use steps::parts::Node;
use values::inner_count;

mod fields;
mod file;
mod inner;
mod names;
mod payload;
mod records;
mod references;
mod scalars;
mod sink;
mod strings;
mod symbols;
mod table;
mod values;

// Writes the file to a writer with memory in which it fits.
fn write_to(store: &Store<'_>, writer: &mut Writer<'_>, sizes: Sizes)
    requires exact { Exact (standing store.now) sizes.count sizes.strings sizes.payload }
    requires fresh { writer.old.used ≡ 0 }
    requires fits { length (canonical (standing store.now)) ≤ length writer.old.memory.now }
    requires low { length (canonical (standing store.now)) ≤ largest_file }
    ensures name { writer.new.memory.ghost_name ≡ writer.old.memory.ghost_name }
    ensures bytes { writer.new.memory.now ≡ with_file (standing store.now) writer.old.memory.now }
{
    let roots = inner_count(store, store.count(), Node::Root);
    heading(writer, sizes.flags(), roots, sizes.payload as u32);
    symbol_table(store, writer, sizes);
    let end = writer.size();
    let start = end - sizes.strings;
    payload(store, writer, Strings { start, end });
}

// Writes the file to the start of an output in which it fits.
fn write(store: &Store<'_>, output: &mut [u8], sizes: Sizes)
    requires exact { Exact (standing store.now) sizes.count sizes.strings sizes.payload }
    requires fits { length (canonical (standing store.now)) ≤ length output.old }
    requires low { length (canonical (standing store.now)) ≤ largest_file }
    ensures { output.new ≡ with_file (standing store.now) output.old }
{
    let mut writer = Writer::new(output);
    write_to(store, &mut writer, sizes);
}

// Writes the canonical file of a document to the start of the output, and answers its length. Where something is open, or the
// file does not fit the output or is longer than a file may be, the save is refused and the output is left as it was.
pub fn save(store: &Store<'_>, output: &mut [u8]) -> Result<usize, Reason>
    ensures { Saved (standing store.now) output.old result output.new }
{
    if store.has_open() {
        return Err(Reason::StillOpen);
    }
    let sizes = Sizes::of(store);
    let size = sizes.file_size();
    if size > output.len() || size > LARGEST_FILE {
        return Err(Reason::DoesNotFit);
    }
    write(store, output, sizes);
    Ok(size)
}
