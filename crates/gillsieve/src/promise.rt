// What holds of every history of calls.
ghost use Rattle.std.specs.Prelude.{List, OnOk};
ghost use Rattle.steps.specs.Law.{Memory};
ghost use Rattle.steps.specs.Outline.{values};
ghost use Rattle.redbin.specs.Reading.{file_steps};
ghost use Rattle.listing.specs.Listings.{Fresh, BothMean};
ghost use Rattle.delays.specs.Delays.{delays};
ghost use Rattle.gillsieve.specs.Events.{Event};
ghost use Rattle.gillsieve.specs.Histories.{History, reckoned, Promise};

use crate::draft::Draft;
use listing::Listing;
use refusal::Refusal;

// Holds no code: its contract is the promise over every two histories of calls, for every two kinds of listings.
pub fn histories_keep_promise<A: Listing, B: Listing>()
    ensures { Promise A.Listing.meaning B.Listing.meaning }
{}

// Prints a document into two listings. Where both take all of it, fresh listings mean the same list then: the delays of the
// steps that its history says.
pub fn print_both<A: Listing, B: Listing>(
    draft: &Draft<'_>,
    a: &mut A,
    b: &mut B,
) -> Result<(), Refusal>
    ensures { (m : Memory) (calls : List Event) → History m calls draft.now → Fresh A.Listing.meaning a.old → Fresh B.Listing.meaning b.old → OnOk result (BothMean (A.Listing.meaning a.new) (B.Listing.meaning b.new) (delays (values (reckoned calls)))) }
{
    histories_keep_promise::<A, B>();
    draft.print(a)?;
    draft.print(b)
}

// Loads a file and prints its document into two listings. Where that is accepted, fresh listings mean the same list then: the
// delays of the document that the file means.
pub fn list_file<A: Listing, B: Listing>(
    draft: &mut Draft<'_>,
    file: &[u8],
    a: &mut A,
    b: &mut B,
) -> Result<(), Refusal>
    ensures { (m : Memory) (calls : List Event) → History m calls draft.old → Fresh A.Listing.meaning a.old → Fresh B.Listing.meaning b.old → OnOk result (BothMean (A.Listing.meaning a.new) (B.Listing.meaning b.new) (delays (values (file_steps file.now)))) }
{
    draft.load(file)?;
    print_both(draft, a, b)
}
