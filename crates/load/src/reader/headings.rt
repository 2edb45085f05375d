// Headers of values in a file.
ghost use Rattle.std.specs.Prelude.{◌≡◌, not, ◌||◌, length, take, ◌==◌, nat_lt};
ghost use Rattle.redbin.specs.Bytes.{number};
ghost use Rattle.redbin.specs.Layout.{float_type};
ghost use Rattle.redbin.specs.Reading.{behind_padding, heading};
ghost use Rattle.load.specs.Announced.{headed};
ghost use Rattle.load.specs.Ran.{DidIn, as_read, rest_of};

use crate::header::Heading;
use crate::header::headings::heading_of;
use crate::reader::Reader;
use redbin::header::type_in;
use redbin::layout::{FLOAT_TYPE, PADDING_HEADER, PADDING_TYPE};
use refusal::{Part, Reason, Refusal};

impl<'f> Reader<'f> {
    // Whether a whole header of a float follows.
    fn float_follows(&self) -> bool
        ensures { result ≡ not (nat_lt (length (rest_of self.now)) 4 || not (number (take 1 (rest_of self.now)) == float_type)) }
    {
        match self.rest() {
            [code, _, _, _, ..] => *code == FLOAT_TYPE,
            _ => false,
        }
    }

    // The header of the float that has to stand behind padding. The padding has this place and header.
    #[tactic(auto, unfolding(redbin::specs::Reading::behind_padding, redbin::specs::Reading::after, redbin::specs::Reading::refuse_when, redbin::specs::Reading::here))]
    fn behind_padding(&mut self, place: usize, header: u32) -> Result<Heading, Refusal>
        ensures { DidIn self.old (λ c. behind_padding c place header) (as_read headed result) self.new }
    {
        if !self.float_follows() {
            return Err(Reason::BadType.at(Part::Record, place));
        }
        if header != PADDING_HEADER {
            return Err(Reason::BadBits.at(Part::Record, place));
        }
        let start = self.place;
        heading_of(start, self.any_word(Part::Record)?)
    }

    // A value's header, with the padding before it.
    #[tactic(auto, unfolding(redbin::specs::Reading::heading, redbin::specs::Reading::after, redbin::specs::Reading::here))]
    pub fn heading(&mut self) -> Result<Heading, Refusal>
        ensures { DidIn self.old heading (as_read headed result) self.new }
    {
        let place = self.place;
        let header = self.any_word(Part::Record)?;
        if type_in(header) == PADDING_TYPE {
            self.behind_padding(place, header)
        } else {
            heading_of(place, header)
        }
    }
}
