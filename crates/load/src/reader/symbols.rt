// The symbol table of a file, and symbols in records.
ghost use Rattle.std.specs.Prelude.{◌≡◌, ◌+◌, ◌≤◌, take, drop};
ghost use Rattle.redbin.specs.Bytes.{number};
ghost use Rattle.redbin.specs.Reading.{symbol_table};
ghost use Rattle.load.specs.Ran.{Did, as_read, size_of};
ghost use Rattle.load.specs.Tables.{table_of};

use crate::reader::Reader;
use crate::runs::number;
use crate::symbols::Symbols;
use redbin::layout::WORD_END;
use refusal::{Part, Reason, Refusal};

impl<'f> Reader<'f> {
    // How many names, the strings' size, the offsets and the strings.
    #[tactic(auto, unfolding(redbin::specs::Reading::symbol_table, redbin::specs::Reading::after, redbin::specs::Reading::here))]
    pub fn symbol_table(&mut self) -> Result<Symbols<'f>, Refusal>
        ensures { Did self.old symbol_table (as_read table_of result) self.new }
    {
        let part = Part::Symbols;
        let n = self.word(part)?;
        let size = self.word(part)?;
        let place = self.place;
        let offsets = self.words(part, WORD_END, Reason::Large, n)?;
        let strings = self.bytes(part, size as usize)?;
        let symbols = Symbols { offsets, strings };
        match symbols.first_unnamed() {
            None => Ok(symbols),
            Some(i) => Err(Reason::BadSymbol.at(part, place + i * 4)),
        }
    }

    // The index of a symbol, which stands at a place of the file.
    pub fn symbol_at(&self, place: usize) -> u32
        requires { place + 4 ≤ size_of self.now }
        ensures { result ≡ number (take 4 (drop place self.now.file.now)) }
    {
        number(&self.file[place..])
    }
}
