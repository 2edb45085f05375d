ghost use Rattle.gillsieve.specs.Events.{saved, Did};

use crate::draft::Draft;
use refusal::Refusal;
use save::save;

impl<'a> Draft<'a> {
    // Writes the canonical file of the document to the start of the output, and answers its length. A refused save leaves the
    // output as it was.
    pub fn save(&self, output: &mut [u8]) -> Result<usize, Refusal>
        ensures { Did self.now (saved output.old output.new result) self.now }
    {
        Ok(save(&self.store, output)?)
    }
}
