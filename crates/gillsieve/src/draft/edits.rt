ghost use Rattle.std.specs.Prelude.{◌≡◌, [], length};
ghost use Rattle.steps.specs.Given.{tag, content};
ghost use Rattle.steps.specs.Law.{so_much};
ghost use Rattle.steps.specs.Steps.{put as putting, open' as opening, share as sharing};
ghost use Rattle.gillsieve.specs.Drafts.{steps_of, memory_of};
ghost use Rattle.gillsieve.specs.Events.{began, closed, taken_back, Did};
ghost use Rattle.gillsieve.specs.Histories.{Made};

use crate::draft::Draft;
use document::store::{Memories, Store};
use refusal::Refusal;
use steps::parts::{Holder, Label, Node, Share, Value};

impl<'a> Draft<'a> {
    // A draft in which no step stands.
    pub fn new(memories: Memories<'a>) -> Draft<'a>
        ensures steps { steps_of result ≡ [] }
        ensures memory { memory_of result ≡ so_much (length memories.entry.cells.now) (length memories.entry.codepoints.now) (length memories.entry.names.now) }
        ensures made { Made (so_much (length memories.entry.cells.now) (length memories.entry.codepoints.now) (length memories.entry.names.now)) result }
    {
        Draft {
            store: Store::new(memories),
        }
    }

    // Puts a value that holds no others. The answer is its number.
    pub fn put(&mut self, label: Label<'_>, value: Value<'_>) -> Result<u32, Refusal>
        ensures { Did self.old (began (tag label.entry) (putting (content value.entry)) result) self.new }
    {
        Ok(self.store.put(label, value)?)
    }

    // Opens a list or an object, which holds the values that are begun before it is closed. The answer is its number.
    pub fn open(&mut self, label: Label<'_>, holder: Holder) -> Result<u32, Refusal>
        ensures { Did self.old (began (tag label.entry) (opening holder) result) self.new }
    {
        Ok(self.store.open(label, holder)?)
    }

    // Shares an earlier value, the target. The answer is the new value's number.
    pub fn share(&mut self, label: Label<'_>, share: Share, target: Node) -> Result<u32, Refusal>
        ensures { Did self.old (began (tag label.entry) (sharing share target) result) self.new }
    {
        Ok(self.store.share(label, share, target)?)
    }

    // Closes the innermost open list or object.
    pub fn close(&mut self) -> Result<(), Refusal>
        ensures { Did self.old (closed result) self.new }
    {
        Ok(self.store.close()?)
    }

    // Takes back the newest step that stands, and frees the memory that it used.
    pub fn take_back(&mut self) -> Result<(), Refusal>
        ensures { Did self.old (taken_back result) self.new }
    {
        Ok(self.store.take_back()?)
    }
}
