// Fields of a file.
ghost use Rattle.std.specs.Prelude.{◌≡◌, ◌+◌, length, take, IfOk, OnOk};
ghost use Rattle.refusal.specs.declared.Reason.TheVariants.{Large};
ghost use Rattle.steps.specs.Law.{float_end};
ghost use Rattle.redbin.specs.Reading.{Setting, below, word, any_word, on_boundary};
ghost use Rattle.load.specs.Ran.{Ran, Did, as_read, piece, rest_of, size_of};

use crate::reader::Reader;
use redbin::layout::{FIELD_END, WORD_END};
use refusal::{Part, Reason, Refusal};

impl<'f> Reader<'f> {
    // Before the first byte of a file.
    pub fn new(file: &'f [u8]) -> Reader<'f>
        ensures file { result.file ≡ file.entry }
        ensures place { result.place ≡ 0 }
    {
        Reader { file, place: 0 }
    }

    // The place of the next byte.
    pub fn place(&self) -> usize
        ensures { result ≡ self.now.place }
    {
        self.place
    }

    // The bytes that are not read yet.
    pub(crate) fn rest(&self) -> &'f [u8]
        ensures { result.now ≡ rest_of self.now }
    {
        &self.file[self.place..]
    }

    // So many bytes, as they are.
    #[tactic(auto, unfolding(redbin::specs::Reading::after, redbin::specs::Reading::enough, redbin::specs::Reading::skip))]
    pub fn bytes(&mut self, part: Part, count: usize) -> Result<&'f [u8], Refusal>
        ensures did { Did self.old (λ size. piece size part count) (as_read (λ x. x.now) result) self.new }
        ensures part { IfOk result (λ b. b.now ≡ take count (rest_of self.old)) }
        ensures moved { OnOk result (self.new.place ≡ self.old.place + count) }
        ensures long { IfOk result (λ b. length b.now ≡ count) }
    {
        let Some(bytes) = self.rest().get(..count) else {
            return Err(Reason::Short.at(part, self.place));
        };
        self.place += count;
        Ok(bytes)
    }

    // N bytes, as they are. Not by `bytes`, which would have to be shown once more to have answered so many.
    #[tactic(auto, unfolding(redbin::specs::Reading::after, redbin::specs::Reading::enough, redbin::specs::Reading::skip))]
    fn array<const N: usize>(&mut self, part: Part) -> Result<&'f [u8; N], Refusal>
        ensures did { Did self.old (λ size. piece size part N) (as_read (λ x. x.now) result) self.new }
        ensures long { IfOk result (λ b. length b.now ≡ N) }
    {
        let Some(bytes) = self.rest().first_chunk::<N>() else {
            return Err(Reason::Short.at(part, self.place));
        };
        self.place += N;
        Ok(bytes)
    }

    // A number of four bytes, which has to be below a limit. A refused one is not read over.
    pub fn number(&mut self, part: Part, end: u64, why: Reason) -> Result<u32, Refusal>
        ensures { Did self.old (λ size. below size part 4 end why) result self.new }
    {
        let place = self.place;
        let n = u32::from_le_bytes(*self.array(part)?);
        if n as u64 >= end {
            self.place = place;
            return Err(why.at(part, place));
        }
        Ok(n)
    }

    // A count, size, length, head, class or arity.
    pub fn word(&mut self, part: Part) -> Result<u32, Refusal>
        ensures { Did self.old (λ size. word size part) result self.new }
    {
        self.number(part, FIELD_END, Reason::Large)
    }

    // Four bytes that may be any.
    pub fn any_word(&mut self, part: Part) -> Result<u32, Refusal>
        ensures { Did self.old (λ size. any_word size part) result self.new }
    {
        self.number(part, WORD_END, Reason::Large)
    }

    // Eight bytes that may be any.
    pub fn double_word(&mut self, part: Part) -> Result<u64, Refusal>
        ensures { Did self.old (λ size. below size part 8 float_end Large) result self.new }
    {
        let bytes = self.array(part)?;
        Ok(u64::from_le_bytes(*bytes))
    }

    // The next byte has to stand at a multiple of 8 from the first byte of a payload of this size.
    #[tactic(auto, unfolding(redbin::specs::Reading::on_boundary))]
    pub fn on_boundary(&self, payload: u32) -> Result<(), Refusal>
        ensures { (c : Setting) → c.size ≡ size_of self.now → c.payload ≡ payload → Ran (on_boundary c) (rest_of self.now) result (rest_of self.now) }
    {
        let left = self.rest().len();
        if (payload as usize).saturating_sub(left) % 8 == 0 {
            Ok(())
        } else {
            Err(Reason::BadContent.at(Part::Record, self.place))
        }
    }
}
