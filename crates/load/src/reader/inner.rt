// Headers inside records, which announce no value: those of contexts, which stand in objects, and of references, which stand in
// shares.
ghost use Rattle.load.specs.Ran.{Did};
ghost use Rattle.load.specs.Inner.{inner_header};
ghost use Rattle.load.specs.Holders.{context};
ghost use Rattle.load.specs.Shared.{reference};

use crate::reader::Reader;
use redbin::header::{context_header, type_in};
use redbin::layout::REFERENCE_HEADER;
use refusal::{Part, Reason, Refusal};

impl<'f> Reader<'f> {
    // A header that is one of two of a type. First its type is checked, then its other bits.
    #[tactic(auto, unfolding(redbin::specs::Reading::after, redbin::specs::Reading::here, redbin::specs::Reading::refuse_when))]
    fn inner_header(&mut self, part: Part, plain: u32, marked: u32) -> Result<u32, Refusal>
        ensures { Did self.old (inner_header part plain marked) result self.new }
    {
        let place = self.place;
        let header = self.any_word(part)?;
        if type_in(header) != type_in(plain) {
            Err(Reason::BadType.at(part, place))
        } else if header != plain && header != marked {
            Err(Reason::BadBits.at(part, place))
        } else {
            Ok(header)
        }
    }

    // The self mark in the header of a context.
    pub fn context(&mut self) -> Result<bool, Refusal>
        ensures { Did self.old context result self.new }
    {
        let marked = context_header(true);
        let header = self.inner_header(Part::Record, context_header(false), marked)?;
        Ok(header == marked)
    }

    // The place of a reference's header, which has no bit besides the type.
    pub fn reference(&mut self) -> Result<usize, Refusal>
        ensures { Did self.old reference result self.new }
    {
        let place = self.place;
        self.inner_header(Part::Reference, REFERENCE_HEADER, REFERENCE_HEADER)?;
        Ok(place)
    }
}
