ghost use Rattle.gillsieve.specs.Events.{loaded, Did};

use crate::draft::Draft;
use load_file::file::load;
use refusal::Refusal;

impl<'a> Draft<'a> {
    // Loads a file into a draft in which no step stands: the steps that it means stand then. A refused file leaves the draft
    // without steps.
    pub fn load(&mut self, file: &[u8]) -> Result<(), Refusal>
        ensures { Did self.old (loaded file.now result) self.new }
    {
        load(&mut self.store, file)
    }
}
