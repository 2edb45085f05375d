// The delays of a document in a store.
#![tactic(auto)]

ghost use Rattle.std.specs.Prelude.{◌≡◌};
ghost use Rattle.std.specs.Option.{option_map};
ghost use Rattle.steps.specs.Given.{begun, entry as given};
ghost use Rattle.steps.specs.Outline.{values};
ghost use Rattle.document.specs.Standing.{standing};
ghost use Rattle.listing.specs.Pairs.{pair_of};
ghost use Rattle.listing.specs.Listings.{Gave};
ghost use Rattle.delays.specs.Delays.{integer_in, delay_of as delay_in, listed, delays, oldest, one_or_none, delay_at, offends_at, offender as first_offender};

use document::store::Store;
use listing::Listing;
use listing::pairs::{Entry as Delay, is_good};
use refusal::Reason;
use steps::parts::{Entry, Item, Node, Value};

// The integer that an item puts.
fn integer_of(item: Item<'_>) -> Option<i32>
    ensures { result ≡ integer_in (begun item.entry) }
{
    match item {
        Item::Put(Value::Integer(n)) => Some(n),
        _ => None,
    }
}

// The delay that a value is, if it is an integer inside another value.
fn delay_in<'s>(entry: Entry<'s>) -> Option<Delay<'s>>
    ensures { option_map pair_of result ≡ delay_in (given entry.entry) }
{
    if entry.holder == Node::Root {
        return None;
    }
    Some(Delay {
        name: entry.label.name,
        delay: integer_of(entry.item)?,
    })
}

// The delay that the value of a number is, if there is such a value and it is one.
fn delay_of<'s>(store: &'s Store<'_>, number: u32) -> Option<Delay<'s>>
    ensures { option_map pair_of result ≡ delay_at (values (standing store.now)) number }
{
    delay_in(store.entry(number)?)
}

// Whether a value is a delay with this name.
fn is_named(store: &Store<'_>, number: u32, name: &[u8]) -> bool
    ensures { result ≡ listed name.now (one_or_none (delay_at (values (standing store.now)) number)) }
{
    match delay_of(store, number) {
        Some(delay) => delay.name == name,
        None => false,
    }
}

// Whether a name stands among the delays of the first `end` values.
fn is_listed(store: &Store<'_>, end: u32, name: &[u8]) -> bool
    ensures { result ≡ listed name.now (delays (oldest end (values (standing store.now)))) }
{
    (0..end).any(|number| is_named(store, number, name))
}

// Whether a value offends: a root value unless it is an opened object, an inner value unless it is a good pair whose name does
// not stand before it.
fn offends(store: &Store<'_>, number: u32) -> bool
    ensures { result ≡ offends_at (values (standing store.now)) number }
{
    let Some(entry) = store.entry(number) else {
        return false;
    };
    if entry.holder == Node::Root {
        return !entry.item.opens_object();
    }
    match delay_in(entry) {
        None => true,
        Some(delay) => !is_good(&delay) || is_listed(store, number, delay.name),
    }
}

// The lowest value that offends; none: a tuning document.
pub fn offender(store: &Store<'_>) -> Option<u32>
    ensures { result ≡ first_offender (values (standing store.now)) }
{
    (0..store.count()).find(|number| offends(store, *number))
}

// Gives the delay that a value is, if it is one, to a listing.
fn give_delay<L: Listing>(store: &Store<'_>, number: u32, listing: &mut L) -> Result<(), Reason>
    ensures { Gave L.Listing.meaning L.Listing.holds L.Listing.leaves listing.old (one_or_none (delay_at (values (standing store.now)) number)) listing.new result }
{
    match delay_of(store, number) {
        Some(delay) => listing.add(&delay),
        None => Ok(()),
    }
}

// Gives the delays of a document to a listing in order, up to the first refusal.
pub fn list_delays<L: Listing>(store: &Store<'_>, listing: &mut L) -> Result<(), Reason>
    ensures { Gave L.Listing.meaning L.Listing.holds L.Listing.leaves listing.old (delays (values (standing store.now))) listing.new result }
{
    for number in 0..store.count() {
        give_delay(store, number, listing)?;
    }
    Ok(())
}
