// Lists and objects opened and closed in a store.
ghost use Rattle.std.specs.Prelude.{◌≡◌, ◌<◌, true, length, Ok as accepted};
ghost use Rattle.steps.specs.Given.{tag};
ghost use Rattle.steps.specs.Law.{holder_ok};
ghost use Rattle.steps.specs.Outline.{opened};
ghost use Rattle.steps.specs.Steps.{close as closed};
ghost use Rattle.document.specs.Standing.{standing};
ghost use Rattle.redbin.specs.Reading.{room, bare, push};
ghost use Rattle.load.specs.Filled.{Ready, Added};
ghost use Rattle.load.specs.Holders.{opened_with};

use crate::add::or_no_memory;
use crate::start::Start;
use document::store::Store;
use refusal::{Part, Reason, Refusal};
use steps::parts::Holder;

// Memory for a value that has no codepoints.
#[tactic(auto, unfolding(redbin::specs::Reading::room))]
pub fn check_room(store: &Store<'_>, start: Start<'_>) -> Result<(), Refusal>
    ensures { Added store.now (λ c. room c start.entry.place (bare (tag start.entry.label).name)) result store.now }
{
    if store.has_room(0, start.label.name.len()) {
        Ok(())
    } else {
        Err(Reason::NoMemory.at(Part::Record, start.place))
    }
}

// Opens a list or an object.
pub fn add_opened(store: &mut Store<'_>, start: Start<'_>, holder: Holder) -> Result<(), Refusal>
    requires ready { Ready store.old (tag start.label).name }
    requires allowed { holder_ok holder ≡ true }
    ensures { Added store.old (λ c. opened_with c start.entry.place (tag start.entry.label) holder) result store.new }
{
    or_no_memory(store.open(start.label, holder), start.place)
}

// Closes the innermost open value, which there has to be.
pub fn add_close(store: &mut Store<'_>)
    requires { 0 < length (opened (standing store.old)) }
    ensures { Added store.old (λ c. push c.uses closed) (accepted tt) store.new }
{
    let _ = store.close();
}
