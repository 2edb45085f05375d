// Levels entered, and counted down value by value.
ghost use Rattle.std.specs.Prelude.{◌<◌};
ghost use Rattle.load.specs.Names.{bytes_in};
ghost use Rattle.load.specs.Tables.{table_of};
ghost use Rattle.load_file.specs.Levels.{Changed, Next};

use crate::levels::{LevelRecord, Levels};
use load::runs::word;
use load::symbols::Symbols;
use steps::limits::DEEPEST;

impl<'f> Levels<'f> {
    pub fn new() -> Levels<'f> {
        Levels {
            records: [LevelRecord::Unnamed(0); DEEPEST as usize],
        }
    }

    // Begins a level.
    pub fn enter(&mut self, at: usize, level: LevelRecord<'f>)
        requires { at < 32 }
        ensures { Changed self.old.records at level.entry self.new.records }
    {
        self.records[at] = level;
    }

    // The name of a level's next value, which is then counted; none: no value is left.
    pub fn next(&mut self, at: usize, symbols: Symbols<'f>) -> Option<&'f [u8]>
        requires { at < 32 }
        ensures { Next (table_of symbols.entry) self.old.records at (bytes_in result) self.new.records }
    {
        let record = self.records[at];
        match record {
            LevelRecord::Unnamed(left) => {
                let left = left.checked_sub(1)?;
                self.records[at] = LevelRecord::Unnamed(left);
                Some(&[])
            }
            LevelRecord::Named(indexes) => {
                let (index, rest) = indexes.split_first()?;
                self.records[at] = LevelRecord::Named(rest);
                Some(symbols.name(word(index)))
            }
        }
    }
}
