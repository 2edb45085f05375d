// Records: values, the lists and objects that hold them, and the values in these.
ghost use Rattle.std.specs.Prelude.{◌≡◌, ◌-◌, ◌<◌, ◌≤◌, true, OnOk};
ghost use Rattle.steps.specs.Given.{tag};
ghost use Rattle.steps.specs.Law.{name_ok, holder_ok};
ghost use Rattle.steps.specs.Outline.{opened, in_object, is_object};
ghost use Rattle.document.specs.Standing.{standing};
ghost use Rattle.redbin.specs.Reading.{each, add_list, add_object, content, value};
ghost use Rattle.load.specs.Tables.{table_of};
ghost use Rattle.load_file.specs.Levels.{names_left};
ghost use Rattle.load_file.specs.Scopes.{start_of, held};
ghost use Rattle.load_file.specs.Values.{Prepared, Named, Valued};

use crate::depth::{Depth, Level};
use crate::levels::LevelRecord;
use crate::loader::Loader;
use crate::scope::Opening;
use crate::starts::{context_start, list_start, object_start};
use load::filler::Filler;
use load::header::Heading;
use load::holders::{add_close, add_opened};
use load::scalars::nothing;
use load::start::Start;
use redbin::form::Form;
use refusal::{Part, Reason, Refusal};
use steps::parts::{Label, ListKind};

// What these functions ask ties the depth and the store, which are given with a call, to the loader or to a name, so no type of
// one value can say it.
impl<'f> Loader<'f> {
    // One value, which has this name.
    #[cycle(records)]
    pub fn value(
        &mut self,
        filler: &mut Filler<'_, 'f, '_>,
        depth: &mut Depth,
        name: &[u8],
    ) -> Result<(), Refusal>
        requires prepared { Prepared depth.old.left filler.old.store.now }
        requires named { name_ok (opened (standing filler.old.store.now)) name.now ≡ true }
        ensures { Valued (λ c. value c depth.old.left name.now) self.old filler.old depth.old result self.new filler.new depth.new }
    {
        let Heading {
            place,
            form,
            new_line,
        } = filler.reader.heading()?;
        if depth.left == 0 {
            return Err(Reason::TooDeep.at(Part::Record, place));
        }
        let label = Label { new_line, name };
        self.content(filler, depth, Start { place, label }, form)
    }

    // What stands behind a value's header.
    #[cycle(records)]
    fn content(
        &mut self,
        filler: &mut Filler<'_, 'f, '_>,
        depth: &mut Depth,
        start: Start<'_>,
        form: Form,
    ) -> Result<(), Refusal>
        requires prepared { Prepared depth.old.left filler.old.store.now }
        requires named { name_ok (opened (standing filler.old.store.now)) (tag start.label).name ≡ true }
        requires some { 0 < depth.old.left }
        ensures { Valued (λ c. content c (value c (depth.old.left - 1)) start.entry.place (tag start.entry.label) form) self.old filler.old depth.old result self.new filler.new depth.new }
    {
        // Each arm makes another call with arguments of its own, so a table of calls would be no plainer.
        match form {
            Form::Nothing => nothing(filler.store, start),
            Form::Logic => filler.logic(start),
            Form::Char => filler.char(start),
            Form::Integer => filler.integer(start),
            Form::Float => filler.float(start, self.scope.payload),
            Form::Text { kind, unit } => filler.add_text(start, kind, unit),
            Form::List { kind } => self.list(filler, depth, start, kind),
            Form::Object { owner } => self.context(filler, depth, start, owner),
            Form::ShareText { kind } => filler.share_text(start, kind),
            Form::ShareList { kind } => filler.share_list(start, kind),
            Form::ShareObject { owner } => filler.share_object(start, owner),
        }
    }

    // A list's head and length, and its values.
    #[cycle(records)]
    fn list(
        &mut self,
        filler: &mut Filler<'_, 'f, '_>,
        depth: &mut Depth,
        start: Start<'_>,
        kind: ListKind,
    ) -> Result<(), Refusal>
        requires prepared { Prepared depth.old.left filler.old.store.now }
        requires named { name_ok (opened (standing filler.old.store.now)) (tag start.label).name ≡ true }
        requires some { 0 < depth.old.left }
        ensures { Valued (λ c. add_list c (value c (depth.old.left - 1)) start.entry.place (tag start.entry.label) kind) self.old filler.old depth.old result self.new filler.new depth.new }
    {
        let opening = list_start(&mut filler.reader, kind)?;
        self.hold(filler, depth, start, opening)
    }

    // An object's fields, its context, and the values that the context names.
    #[cycle(records)]
    fn context(
        &mut self,
        filler: &mut Filler<'_, 'f, '_>,
        depth: &mut Depth,
        start: Start<'_>,
        owner: bool,
    ) -> Result<(), Refusal>
        requires prepared { Prepared depth.old.left filler.old.store.now }
        requires named { name_ok (opened (standing filler.old.store.now)) (tag start.label).name ≡ true }
        requires some { 0 < depth.old.left }
        ensures { Valued (λ c. add_object c (value c (depth.old.left - 1)) start.entry.place (tag start.entry.label) owner) self.old filler.old depth.old result self.new filler.new depth.new }
    {
        let fields = object_start(&mut filler.reader, filler.store, start, owner)?;
        let opening = context_start(&mut filler.reader, self.scope, fields)?;
        self.hold(filler, depth, start, opening)
    }

    // Opens a list or an object, reads the values in it, and closes it.
    #[cycle(records)]
    fn hold(
        &mut self,
        filler: &mut Filler<'_, 'f, '_>,
        depth: &mut Depth,
        start: Start<'_>,
        opening: Opening<'f>,
    ) -> Result<(), Refusal>
        requires prepared { Prepared depth.old.left filler.old.store.now }
        requires named { name_ok (opened (standing filler.old.store.now)) (tag start.label).name ≡ true }
        requires some { 0 < depth.old.left }
        requires allowed { holder_ok opening.holder ≡ true }
        requires inner { Named (is_object opening.holder) (names_left (table_of self.old.scope.symbols) opening.level) }
        ensures { Valued (λ c. held c (value c (depth.old.left - 1)) start.entry.place (tag start.entry.label) (start_of (table_of self.old.scope.symbols) opening.entry)) self.old filler.old depth.old result self.new filler.new depth.new }
    {
        add_opened(filler.store, start, opening.holder)?;
        self.values(filler, depth, opening.level)?;
        add_close(filler.store);
        Ok(())
    }

    // The values that are left at a level, one level further in.
    #[cycle(records)]
    fn values(
        &mut self,
        filler: &mut Filler<'_, 'f, '_>,
        depth: &mut Depth,
        first: LevelRecord<'f>,
    ) -> Result<(), Refusal>
        requires some { 0 < depth.old.left }
        requires few { depth.old.left ≤ 32 }
        requires prepared { Prepared (depth.old.left - 1) filler.old.store.now }
        requires inner { Named (in_object (opened (standing filler.old.store.now))) (names_left (table_of self.old.scope.symbols) first) }
        ensures valued { Valued (λ c. each (value c (depth.old.left - 1)) (names_left (table_of self.old.scope.symbols) first.entry)) self.old filler.old depth.old result self.new filler.new depth.new }
        ensures same { OnOk result (opened (standing filler.new.store.now) ≡ opened (standing filler.old.store.now)) }
    {
        let level = Level::open(depth);
        let at = level.depth.left as usize;
        self.levels.enter(at, first);
        while let Some(name) = self.levels.next(at, self.scope.symbols) {
            self.value(filler, level.depth, name)?;
        }
        Ok(())
    }
}
