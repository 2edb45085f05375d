// Values of one field, or none. Each is two lines, whose contract is one case of `content`; one function for all would take the
// form, and match it again.
ghost use Rattle.std.specs.Prelude.{◌≡◌};
ghost use Rattle.steps.specs.Given.{tag, content as content_of};
ghost use Rattle.steps.specs.Steps.{Name, integer};
ghost use Rattle.redbin.specs.Reading.{Reads, content, signed};
ghost use Rattle.redbin.specs.declared.form.Form.TheVariants.{Nothing as is_none, Logic as is_logic, Char as is_char, Integer as is_integer, Float as is_float};
ghost use Rattle.load.specs.Filled.{Ready, Added, Fills, with_payload};

use crate::add::add;
use crate::filler::Filler;
use crate::start::Start;
use document::store::Store;
use redbin::layout::CODEPOINT_END;
use refusal::{Part, Reason, Refusal};
use steps::parts::Value;

// Made apart: where `add` is given a signed number in a variant, its caller's proof has no equation for that number.
fn integer_value<'v>(bits: u32) -> Value<'v>
    ensures { content_of result ≡ integer (signed bits) }
{
    Value::Integer(bits.cast_signed())
}

#[tactic(auto, unfolding(redbin::specs::Reading::content))]
pub fn nothing(store: &mut Store<'_>, start: Start<'_>) -> Result<(), Refusal>
    requires { Ready store.old (tag start.label).name }
    ensures { (one : Name → Reads (Unit {0})) → Added store.old (λ c. content c one start.entry.place (tag start.entry.label) is_none) result store.new }
{
    add(store, start, Value::Nothing)
}

impl Filler<'_, '_, '_> {
    #[tactic(auto, unfolding(redbin::specs::Reading::content, redbin::specs::Reading::after))]
    pub fn logic(&mut self, start: Start<'_>) -> Result<(), Refusal>
        requires { Ready self.old.store.now (tag start.label).name }
        ensures { (one : Name → Reads (Unit {0})) → Fills (λ c. content c one start.entry.place (tag start.entry.label) is_logic) self.old result self.new }
    {
        let n = self.reader.number(Part::Record, 2, Reason::BadContent)?;
        add(self.store, start, Value::Logic(n > 0))
    }

    #[tactic(auto, unfolding(redbin::specs::Reading::content, redbin::specs::Reading::after))]
    pub fn char(&mut self, start: Start<'_>) -> Result<(), Refusal>
        requires { Ready self.old.store.now (tag start.label).name }
        ensures { (one : Name → Reads (Unit {0})) → Fills (λ c. content c one start.entry.place (tag start.entry.label) is_char) self.old result self.new }
    {
        let reader = &mut self.reader;
        let n = reader.number(Part::Record, CODEPOINT_END, Reason::BadContent)?;
        add(self.store, start, Value::Char(n))
    }

    #[tactic(auto, unfolding(redbin::specs::Reading::content, redbin::specs::Reading::after))]
    pub fn integer(&mut self, start: Start<'_>) -> Result<(), Refusal>
        requires { Ready self.old.store.now (tag start.label).name }
        ensures { (one : Name → Reads (Unit {0})) → Fills (λ c. content c one start.entry.place (tag start.entry.label) is_integer) self.old result self.new }
    {
        let n = self.reader.any_word(Part::Record)?;
        add(self.store, start, integer_value(n))
    }

    // A float stands at a boundary of the payload, which has so many bytes.
    #[tactic(auto, unfolding(redbin::specs::Reading::content, redbin::specs::Reading::after, redbin::specs::Reading::add_float))]
    pub fn float(&mut self, start: Start<'_>, payload: u32) -> Result<(), Refusal>
        requires { Ready self.old.store.now (tag start.label).name }
        ensures { (one : Name → Reads (Unit {0})) → Fills (λ c. content (with_payload payload c) one start.entry.place (tag start.entry.label) is_float) self.old result self.new }
    {
        let reader = &mut self.reader;
        reader.on_boundary(payload)?;
        let n = reader.double_word(Part::Record)?;
        add(self.store, start, Value::Float(n))
    }
}
