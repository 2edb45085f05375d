// Values added to a store.
ghost use Rattle.std.specs.Prelude.{◌≡◌, true, MatchResult, Ok as accepted, Err as refused};
ghost use Rattle.refusal.specs.declared.Reason.TheVariants.{NoMemory};
ghost use Rattle.refusal.specs.declared.Part.TheVariants.{Record};
ghost use Rattle.steps.specs.Given.{tag, content};
ghost use Rattle.steps.specs.Law.{content_ok, begun_ok};
ghost use Rattle.steps.specs.Outline.{values};
ghost use Rattle.steps.specs.Steps.{share as sharing};
ghost use Rattle.document.specs.Standing.{standing};
ghost use Rattle.redbin.specs.Reading.{because, add};
ghost use Rattle.load.specs.Filled.{Ready, Added};
ghost use Rattle.load.specs.Shared.{shared};

use crate::start::Start;
use document::store::Store;
use refusal::{Part, Reason, Refusal};
use steps::parts::{Node, Share, Value};

// A value that is begun can be refused for memory alone. Its header has this place.
pub(crate) fn or_no_memory(answer: Result<u32, Reason>, place: usize) -> Result<(), Refusal>
    ensures { MatchResult answer (λ _. result ≡ accepted tt) (λ _. result ≡ refused (because NoMemory Record place)) }
{
    match answer {
        Ok(_) => Ok(()),
        Err(_) => Err(Reason::NoMemory.at(Part::Record, place)),
    }
}

pub fn add(store: &mut Store<'_>, start: Start<'_>, value: Value<'_>) -> Result<(), Refusal>
    requires ready { Ready store.old (tag start.label).name }
    requires allowed { content_ok (content value) ≡ true }
    ensures { Added store.old (λ c. add c start.entry.place (tag start.entry.label) (content value.entry)) result store.new }
{
    or_no_memory(store.put(start.label, value), start.place)
}

pub fn add_shared(
    store: &mut Store<'_>,
    start: Start<'_>,
    share: Share,
    target: Node,
) -> Result<(), Refusal>
    requires ready { Ready store.old (tag start.label).name }
    requires allowed { begun_ok (values (standing store.old)) (sharing share target) ≡ true }
    ensures { Added store.old (λ c. shared c start.entry.place (tag start.entry.label) share target) result store.new }
{
    or_no_memory(store.share(start.label, share, target), start.place)
}
