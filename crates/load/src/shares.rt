// Shares of earlier values.
ghost use Rattle.std.specs.Prelude.{◌≡◌, true};
ghost use Rattle.steps.specs.Given.{tag};
ghost use Rattle.steps.specs.Law.{share_ok};
ghost use Rattle.steps.specs.Steps.{Name};
ghost use Rattle.redbin.specs.Reading.{Reads, add_share, content};
ghost use Rattle.redbin.specs.declared.form.Form.TheVariants.{ShareText as shares_text, ShareList as shares_list, ShareObject as shares_object};
ghost use Rattle.load.specs.Filled.{Ready, Fills};

use crate::add::add_shared;
use crate::filler::Filler;
use crate::paths::target_of;
use crate::start::Start;
use redbin::layout::FIELD_END;
use refusal::{Part, Reason, Refusal};
use steps::parts::{ListKind, Share, TextKind};

impl Filler<'_, '_, '_> {
    // A share's reference, and the share.
    pub fn add_share(&mut self, start: Start<'_>, share: Share) -> Result<(), Refusal>
        requires ready { Ready self.old.store.now (tag start.label).name }
        requires allowed { share_ok share ≡ true }
        ensures { Fills (λ c. add_share c start.entry.place (tag start.entry.label) share) self.old result self.new }
    {
        let part = Part::Reference;
        let place = self.reader.reference()?;
        let count = self.reader.word(part)?;
        let path = self.reader.words(part, FIELD_END, Reason::Large, count)?;
        let Some(target) = target_of(self.store, share.family(), path) else {
            return Err(Reason::BadPath.at(part, place));
        };
        add_shared(self.store, start, share, target)
    }

    // A share of a text: its head, and the rest. It stays apart from that of a list: each is one case of `content`, and one
    // function for both would take the form, and match it again.
    #[tactic(auto, unfolding(redbin::specs::Reading::content, redbin::specs::Reading::after))]
    pub fn share_text(&mut self, start: Start<'_>, kind: TextKind) -> Result<(), Refusal>
        requires { Ready self.old.store.now (tag start.label).name }
        ensures { (one : Name → Reads (Unit {0})) → Fills (λ c. content c one start.entry.place (tag start.entry.label) (shares_text kind)) self.old result self.new }
    {
        let head = self.reader.word(Part::Record)?;
        self.add_share(start, Share::Text { kind, head })
    }

    // A share of a list: its head, and the rest.
    #[tactic(auto, unfolding(redbin::specs::Reading::content, redbin::specs::Reading::after))]
    pub fn share_list(&mut self, start: Start<'_>, kind: ListKind) -> Result<(), Refusal>
        requires { Ready self.old.store.now (tag start.label).name }
        ensures { (one : Name → Reads (Unit {0})) → Fills (λ c. content c one start.entry.place (tag start.entry.label) (shares_list kind)) self.old result self.new }
    {
        let head = self.reader.word(Part::Record)?;
        self.add_share(start, Share::List { kind, head })
    }

    #[tactic(auto, unfolding(redbin::specs::Reading::content))]
    pub fn share_object(&mut self, start: Start<'_>, owner: bool) -> Result<(), Refusal>
        requires { Ready self.old.store.now (tag start.label).name }
        ensures { (one : Name → Reads (Unit {0})) → Fills (λ c. content c one start.entry.place (tag start.entry.label) (shares_object owner)) self.old result self.new }
    {
        self.add_share(start, Share::Object { owner })
    }
}
