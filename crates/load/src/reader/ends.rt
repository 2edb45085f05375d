// The flags and the ends of a file.
ghost use Rattle.std.specs.Prelude.{◌≡◌, ◌==◌, slice_index};
ghost use Rattle.redbin.specs.Layout.{flags_place, table_flag};
ghost use Rattle.load.specs.Ends.{payload_rest, nothing_left};
ghost use Rattle.load.specs.Ran.{Did};

use crate::reader::Reader;
use redbin::layout::{FLAGS_PLACE, PAYLOAD_SIZE_PLACE, TABLE_FLAG};
use refusal::{Part, Reason, Refusal};
use std::cmp::Ordering;

impl<'f> Reader<'f> {
    // Whether the flags say that there is a symbol table.
    pub fn has_table(&self) -> bool
        ensures { result ≡ (slice_index self.now.file.now flags_place == table_flag) }
    {
        self.file.get(FLAGS_PLACE) == Some(&TABLE_FLAG)
    }

    // The payload, which has this size, has to be the rest of the file.
    #[tactic(auto, unfolding(redbin::specs::Reading::after, redbin::specs::Reading::refuse_when))]
    pub fn check_payload(&self, size: u32) -> Result<(), Refusal>
        ensures { Did self.now (λ _. payload_rest size) result self.now }
    {
        match self.rest().len().cmp(&(size as usize)) {
            Ordering::Less => Err(Reason::Short.at(Part::Header, PAYLOAD_SIZE_PLACE)),
            Ordering::Equal => Ok(()),
            Ordering::Greater => Err(Reason::LeftOver.at(Part::Header, PAYLOAD_SIZE_PLACE)),
        }
    }

    // Nothing may be left behind the last record.
    #[tactic(auto, unfolding(redbin::specs::Reading::after, redbin::specs::Reading::refuse_when))]
    pub fn check_end(&self) -> Result<(), Refusal>
        ensures { Did self.now nothing_left result self.now }
    {
        if self.rest().is_empty() {
            Ok(())
        } else {
            Err(Reason::LeftOver.at(Part::Record, self.place))
        }
    }
}
