// The symbol table of a file.
ghost use Rattle.std.specs.Prelude.{◌≡◌, not, [], length, position, slice_index_or};
ghost use Rattle.redbin.specs.Bytes.{number};
ghost use Rattle.redbin.specs.Reading.{name_at};
ghost use Rattle.load.specs.Names.{bytes_in};
ghost use Rattle.load.specs.Tables.{is_some, table_of};

use crate::runs::word;
use crate::symbols::{Symbols, name_at};

impl<'f> Symbols<'f> {
    // The name to which an offset leads.
    fn named(self, offset: &[u8; 4]) -> Option<&'f [u8]>
        ensures { bytes_in result ≡ name_at self.entry.strings.now (number offset.now) }
    {
        name_at(self.strings, word(offset))
    }

    // The index of the first offset that leads to no name.
    pub fn first_unnamed(self) -> Option<usize>
        ensures { result ≡ position (λ o. not (is_some (name_at self.entry.strings.now (number o)))) self.entry.offsets.now }
    {
        self.offsets
            .iter()
            .position(|offset| self.named(offset).is_none())
    }

    // How many symbols there are.
    #[tactic(auto, using(crate::proofs::Tabled::length_names))]
    pub fn count(self) -> usize
        ensures { result ≡ length (table_of self.entry) }
    {
        self.offsets.len()
    }

    // The name of a symbol by its index.
    pub fn name(self, index: u32) -> &'f [u8]
        ensures { result.now ≡ slice_index_or (table_of self.entry) index [] }
    {
        match self.offsets.get(index as usize) {
            None => &[],
            Some(offset) => self.named(offset).unwrap_or(&[]),
        }
    }
}
