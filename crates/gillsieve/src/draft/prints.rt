ghost use Rattle.steps.specs.Outline.{values};
ghost use Rattle.delays.specs.Delays.{delays};
ghost use Rattle.gillsieve.specs.Drafts.{steps_of};
ghost use Rattle.gillsieve.specs.Events.{printed, print_refusal, Listed, Did};

use crate::draft::Draft;
use delays::{list_delays, offender};
use listing::Listing;
use refusal::{Part, Reason, Refusal};

impl<'a> Draft<'a> {
    // Gives the delays of a tuning document to a listing in order, up to the first that does not fit.
    pub fn print<L: Listing>(&self, listing: &mut L) -> Result<(), Refusal>
        ensures did { Did self.now (printed (L.Listing.meaning listing.old) (L.Listing.meaning listing.new) result) self.now }
        ensures listed { Listed L.Listing.meaning L.Listing.holds L.Listing.leaves (print_refusal (steps_of self.now)) listing.old (delays (values (steps_of self.now))) listing.new result }
    {
        if self.store.has_open() {
            return Err(Reason::StillOpen.into());
        }
        if let Some(number) = offender(&self.store) {
            return Err(Reason::NotTuning.at(Part::Draft, number as usize));
        }
        let given = list_delays(&self.store, listing);
        Ok(given?)
    }
}
