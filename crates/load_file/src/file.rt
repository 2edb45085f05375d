// Whole files.
ghost use Rattle.std.specs.Prelude.{◌≡◌, [], replicate, if◌then◌else◌, nat_eq, slice_index};
ghost use Rattle.document.specs.Standing.{standing};
ghost use Rattle.redbin.specs.Layout.{flags_place, table_flag};
ghost use Rattle.redbin.specs.Reading.{symbol_table, return, each, records, value};
ghost use Rattle.load.specs.Ran.{Did, as_read};
ghost use Rattle.load.specs.Tables.{table_of};
ghost use Rattle.load_file.specs.Files.{ReadPayload, ReadFile, Loaded};
ghost use Rattle.load_file.specs.Lawful.{AllLawful};
ghost use Rattle.load_file.specs.Values.{Prepared, Read};

use crate::depth::Depth;
use crate::levels::Levels;
use crate::loader::Loader;
use crate::scope::Scope;
use document::store::Store;
use load::filler::Filler;
use load::reader::Reader;
use load::symbols::Symbols;
use refusal::{Part, Reason, Refusal};
use steps::limits::DEEPEST;

// The symbols of a file, if its flags say that it has a table of them.
fn symbols<'f>(reader: &mut Reader<'f>) -> Result<Symbols<'f>, Refusal>
    ensures { Did reader.old (λ size. (if nat_eq (slice_index reader.old.file.now flags_place) table_flag then symbol_table size else return [])) (as_read table_of result) reader.new }
{
    if reader.has_table() {
        return reader.symbol_table();
    }
    Ok(Symbols {
        offsets: &[],
        strings: &[],
    })
}

impl<'f> Loader<'f> {
    // The root values.
    fn roots(&mut self, filler: &mut Filler<'_, 'f, '_>, count: u32) -> Result<(), Refusal>
        requires { Prepared 32 filler.old.store.now }
        ensures { Read (λ c. each (value c 32) (replicate count [])) self.old filler.old result self.new filler.new }
    {
        let mut depth = Depth { left: DEEPEST };
        for _ in 0..count {
            self.value(filler, &mut depth, &[])?;
        }
        Ok(())
    }

    // The payload: the rest of the file, with so many root values and nothing behind them.
    fn records(&mut self, filler: &mut Filler<'_, 'f, '_>, count: u32) -> Result<(), Refusal>
        requires { Prepared 32 filler.old.store.now }
        ensures read { Read (λ c. records c count) self.old filler.old result self.new filler.new }
        ensures lent { filler.new.store.ghost_name ≡ filler.old.store.ghost_name }
    {
        let reader = &mut filler.reader;
        reader.check_payload(self.scope.payload)?;
        self.roots(filler, count)?;
        let reader = &mut filler.reader;
        reader.check_end()
    }
}

// The payload of a file into a store.
fn read_payload<'f>(
    reader: Reader<'f>,
    store: &mut Store<'_>,
    scope: Scope<'f>,
    count: u32,
) -> Result<(), Refusal>
    requires lawful { AllLawful (table_of scope.symbols) }
    requires prepared { Prepared 32 store.old }
    ensures { ReadPayload reader.entry scope.entry count store.old result store.new }
{
    let mut filler = Filler { reader, store };
    let mut loader = Loader {
        scope,
        levels: Levels::new(),
    };
    loader.records(&mut filler, count)
}

// A whole file into a store in which no step stands.
fn read_file(store: &mut Store<'_>, file: &[u8]) -> Result<(), Refusal>
    requires { standing store.old ≡ [] }
    ensures { ReadFile store.old file.now result store.new }
{
    let mut reader = Reader::new(file);
    reader.start_of_file()?;
    let count = reader.word(Part::Header)?;
    let payload = reader.word(Part::Header)?;
    let symbols = symbols(&mut reader)?;
    read_payload(reader, store, Scope { symbols, payload }, count)
}

// Loads a file: its steps stand then. Where steps stand already, or the file is refused, the store keeps the steps that it had.
pub fn load(store: &mut Store<'_>, file: &[u8]) -> Result<(), Refusal>
    ensures { Loaded store.old file.now result store.new }
{
    if !store.is_empty() {
        return Err(Reason::StepsStand.into());
    }
    match read_file(store, file) {
        Ok(()) => Ok(()),
        Err(refusal) => {
            store.clear();
            Err(refusal)
        }
    }
}
