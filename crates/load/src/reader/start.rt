// The first bytes of a file.
ghost use Rattle.load.specs.Ran.{Started};

use crate::reader::Reader;
use redbin::layout::{
    FILE_HEADER_SIZE, FLAGS_PLACE, LARGEST_FILE, LETTERS, START_SIZE, TABLE_FLAG, VERSION,
    VERSION_PLACE,
};
use refusal::{Part, Reason, Refusal};

impl<'f> Reader<'f> {
    // Checks the letters, the version, the flags and the file's size, and stands behind the flags.
    #[tactic(auto, unfolding(redbin::specs::Reading::start_of_file, redbin::specs::Reading::after, redbin::specs::Reading::refuse_when, redbin::specs::Reading::skip))]
    pub fn start_of_file(&mut self) -> Result<(), Refusal>
        ensures { Started self.old result self.new }
    {
        let file = self.file;
        let part = Part::Header;
        if file.len() < FILE_HEADER_SIZE || !file.starts_with(LETTERS) {
            return Err(Reason::NotRedbin.at(part, 0));
        }
        if file[VERSION_PLACE] != VERSION {
            return Err(Reason::Version.at(part, VERSION_PLACE));
        }
        let flags = file[FLAGS_PLACE];
        if flags != 0 && flags != TABLE_FLAG {
            return Err(Reason::Flags.at(part, FLAGS_PLACE));
        }
        if file.len() > LARGEST_FILE {
            return Err(Reason::Large.at(part, 0));
        }
        self.place = START_SIZE;
        Ok(())
    }
}
