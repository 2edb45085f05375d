// How lists and objects start.
ghost use Rattle.steps.specs.Given.{tag};
ghost use Rattle.steps.specs.Steps.{Name};
ghost use Rattle.load.specs.Ran.{Did, DidIn, as_read};
ghost use Rattle.load.specs.Filled.{Filled};
ghost use Rattle.load.specs.Tables.{table_of};
ghost use Rattle.load_file.specs.Scopes.{within, start_of, list_start, object_start, context_start};
ghost use Rattle.load_file.specs.Levels.{is_unnamed};
ghost use Rattle.std.specs.Prelude.{◌≡◌, List, true, IfOk};

use crate::levels::LevelRecord;
use crate::scope::{Fields, Opening, Scope};
use document::store::Store;
use load::holders::check_room;
use load::reader::Reader;
use load::start::Start;
use refusal::{Part, Reason, Refusal};
use steps::parts::{Holder, ListKind};

// A list's head and length.
#[tactic(auto, unfolding(redbin::specs::Reading::after))]
pub fn list_start<'f>(reader: &mut Reader<'f>, kind: ListKind) -> Result<Opening<'f>, Refusal>
    ensures did { (table : List Name) → Did reader.old (list_start kind) (as_read (start_of table) result) reader.new }
    ensures unnamed { IfOk result (λ o. is_unnamed o.level ≡ true) }
{
    let head = reader.word(Part::Record)?;
    let left = reader.word(Part::Record)?;
    Ok(Opening {
        holder: Holder::List { kind, head },
        level: LevelRecord::Unnamed(left),
    })
}

// An object's class, on-set and arity, and memory for it.
#[tactic(auto, unfolding(redbin::specs::Reading::after, redbin::specs::Reading::room))]
pub fn object_start(
    reader: &mut Reader<'_>,
    store: &Store<'_>,
    start: Start<'_>,
    owner: bool,
) -> Result<Fields, Refusal>
    ensures { Filled reader.old store.now (object_start owner start.entry.place (tag start.entry.label)) result reader.new store.now }
{
    let class = reader.word(Part::Record)?;
    let on_set = reader.any_word(Part::Record)?;
    let arity = reader.word(Part::Record)?;
    check_room(store, start)?;
    Ok(Fields {
        owner,
        class,
        on_set,
        arity,
    })
}

// A context's header, its length and the symbols of its values.
#[tactic(auto, unfolding(redbin::specs::Reading::after))]
pub fn context_start<'f>(
    reader: &mut Reader<'f>,
    scope: Scope<'_>,
    fields: Fields,
) -> Result<Opening<'f>, Refusal>
    ensures { DidIn reader.old (λ c. context_start fields (within scope.entry c)) (as_read (start_of (table_of scope.entry.symbols)) result) reader.new }
{
    let self_mark = reader.context()?;
    let left = reader.word(Part::Record)?;
    let count = scope.symbols.count() as u64;
    let indexes = reader.words(Part::Record, count, Reason::BadIndex, left)?;
    let Fields {
        owner,
        class,
        on_set,
        arity,
    } = fields;
    Ok(Opening {
        holder: Holder::Object {
            owner,
            self_mark,
            class,
            on_set,
            arity,
        },
        level: LevelRecord::Named(indexes),
    })
}
