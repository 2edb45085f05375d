// Runs of numbers as one field.
ghost use Rattle.std.specs.Prelude.{◌≡◌, ◌+◌, ◌*◌, length, take, map, IfOk, OnOk};
ghost use Rattle.redbin.specs.Bytes.{number};
ghost use Rattle.redbin.specs.Reading.{run};
ghost use Rattle.load.specs.Ran.{Did, as_read, rest_of};
ghost use Rattle.redbin.specs.Layout.{width};
ghost use Rattle.load.specs.Runs.{entries};

use crate::reader::Reader;
use crate::runs::{first_bad, span};
use redbin::width::Width;
use refusal::{Part, Reason, Refusal};

impl<'f> Reader<'f> {
    // The bytes of `n` numbers, each of which has to be below a limit. Refused ones are not read over.
    pub fn run(
        &mut self,
        part: Part,
        unit: Width,
        end: u64,
        why: Reason,
        n: u32,
    ) -> Result<&'f [u8], Refusal>
        ensures did { Did self.old (λ size. run size part (width unit) end why n) (as_read (λ b. entries (width unit) n b.now) result) self.new }
        ensures part { IfOk result (λ b. b.now ≡ take (n * width unit) (rest_of self.old)) }
        ensures moved { OnOk result (self.new.place ≡ self.old.place + n * width unit) }
        ensures long { IfOk result (λ b. length b.now ≡ n * width unit) }
    {
        let place = self.place;
        let bytes = self.bytes(part, span(unit, n))?;
        match first_bad(bytes, unit, end) {
            None => Ok(bytes),
            Some(i) => {
                self.place = place;
                Err(why.at(part, place + i * unit.bytes() as usize))
            }
        }
    }

    // The same, where each number has four bytes.
    pub fn words(
        &mut self,
        part: Part,
        end: u64,
        why: Reason,
        n: u32,
    ) -> Result<&'f [[u8; 4]], Refusal>
        ensures did { Did self.old (λ size. run size part 4 end why n) (as_read (λ b. map number b.now) result) self.new }
        ensures long { IfOk result (λ b. length b.now ≡ n) }
    {
        let bytes = self.run(part, Width::Four, end, why, n)?;
        let (words, _) = bytes.as_chunks();
        Ok(words)
    }
}
