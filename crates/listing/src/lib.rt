// Listings of purge delays: what every kind of listing promises, and the two kinds that are supplied.
#![tactic(auto)]

ghost use Rattle.std.specs.Prelude.{◌≡◌, ℕ, ◌≤◌, Bool, true, List, map, OnErr, OnOk};
ghost use Rattle.refusal.specs.Numbers.{refused_with};
ghost use Rattle.listing.specs.Pairs.{Pair, pair_of, good};
ghost use Rattle.listing.specs.Listings.{refusal as why_refused, Added, Gave, Fresh, BothMean, Agree};

use pairs::Entry;
use refusal::Reason;

pub mod forms;
pub mod lines;
mod memory;
pub mod pairs;
mod writes;

// A listing means a list of pairs, to which good pairs are added while they fit.
pub trait Listing {
    // The bytes of the longest entry of this kind of listing.
    const LONGEST: usize;

    ghost meaning: { Self → List Pair };

    // its spare bytes
    ghost room: { Self → ℕ };

    // whether a pair fits
    ghost holds: { Self → Pair → Bool };

    // the bytes of its longest entry
    ghost longest: { ℕ };

    // what an accepted pair leaves of the listing besides its meaning, as far as this kind of listing says
    ghost leaves: { Self → Pair → Self → Type 0 };

    // Answers `LONGEST`.
    fn longest_entry() -> usize
        ensures { result ≡ longest };

    fn spare(&self) -> usize
        ensures { result ≡ room self.now };

    fn fits(&self, entry: &Entry<'_>) -> bool
        ensures { result ≡ holds self.now (pair_of entry.now) };

    // Adds a pair at the end: a bad one is refused 21, then one that does not fit 20.
    fn add(&mut self, entry: &Entry<'_>) -> Result<(), Reason>
        ensures answer { refused_with result ≡ why_refused (good (pair_of entry.now)) (holds self.old (pair_of entry.now)) }
        ensures added { OnOk result (Added meaning holds leaves self.old (pair_of entry.now) self.new) }
        ensures same { OnErr result (self.new ≡ self.old) };

    // With the bytes of the longest entry spare every good pair fits.
    ghost roomy: { (s : Self) (p : Pair) → good p ≡ true → longest ≤ room s → holds s p ≡ true };

    // A bad pair never does.
    ghost sure: { (s : Self) (p : Pair) → holds s p ≡ true → good p ≡ true };

    // Holds no code: says these two laws.
    final fn longest_suffices()
        ensures roomy { (s : Self) (p : Pair) → good p ≡ true → longest ≤ room s → holds s p ≡ true }
        ensures sure { (s : Self) (p : Pair) → holds s p ≡ true → good p ≡ true }
    {}
}

// Gives the entries to a listing in order, up to the first refusal.
pub fn give_all<L: Listing>(entries: &[Entry], listing: &mut L) -> Result<(), Reason>
    ensures { Gave L.meaning L.holds L.leaves listing.old (map pair_of entries.now) listing.new result }
{
    for entry in entries {
        listing.add(entry)?;
    }
    Ok(())
}

// Two fresh listings, of any two kinds, that take the same pairs mean the same list: these pairs.
#[tactic(auto, using(crate::proofs::Givings::agree))]
pub fn listings_agree<A: Listing, B: Listing>()
    ensures { Agree A.meaning A.holds A.leaves B.meaning B.holds B.leaves }
{}

// Gives the entries to two listings. Where both take all of them, fresh listings mean the same list then: these entries.
pub fn give_both<A: Listing, B: Listing>(
    entries: &[Entry],
    a: &mut A,
    b: &mut B,
) -> Result<(), Reason>
    ensures { Fresh A.meaning a.old → Fresh B.meaning b.old → OnOk result (BothMean (A.meaning a.new) (B.meaning b.new) (map pair_of entries.now)) }
{
    listings_agree::<A, B>();
    give_all(entries, a)?;
    give_all(entries, b)
}
