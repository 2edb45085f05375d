ghost use Rattle.std.specs.Prelude.{◌≡◌, [], length, OnOk, OnErr};
ghost use Rattle.refusal.specs.Numbers.{refused_with};
ghost use Rattle.listing.specs.Pairs.{pair_of, good};
ghost use Rattle.listing.specs.Listings.{refusal as why_refused, Added};
ghost use Rattle.listing.specs.Memory.{unused, means, fits_in, Kept, Appended, Text};

use crate::forms::{Header, LineForm, Table};
use crate::memory::Memory;
use crate::pairs::{Entry, is_good};
use crate::writes::{line_size, put_line};
use refusal::Reason;
use std::marker::PhantomData;

pub mod kinds;

// Lines of a form, in the first bytes of lent memory. How many are used stands beside, since no call has a heap.
#[derive(Drop)]
pub struct Lines<M: Memory, F: LineForm> {
    memory: M,
    used: usize,
    form: PhantomData<F>,
    ghost kept: { Kept F.form (M.stored memory) used },
}

// The lines of the C header.
pub type HeaderListing<'a> = Lines<&'a mut [u8], Header>;

// The lines of the manual's table.
pub type TableListing<'a> = Lines<&'a mut [u8], Table>;

impl<M: Memory, F: LineForm> Lines<M, F> {
    // No line yet, and all the memory to spare.
    pub fn new(memory: M) -> Self
        ensures fresh { means F.form (M.stored result.memory) result.used ≡ [] }
        ensures spare { unused (M.stored result.memory) result.used ≡ length (M.stored memory) }
        ensures bytes { M.stored result.memory ≡ M.stored memory }
    {
        Lines {
            memory,
            used: 0,
            form: PhantomData,
        }
    }

    // The lines so far.
    #[tactic(auto, using(crate::proofs::Appends::text_of))]
    pub fn text(&self) -> &[u8]
        ensures { Text F.form (M.stored self.now.memory) self.now.used result.now }
    {
        &self.memory.as_bytes()[..self.used]
    }

    // Why an entry is refused, if it is: a bad one is, then one whose line does not fit.
    fn check(&self, entry: &Entry<'_>) -> Result<(), Reason>
        ensures { refused_with result ≡ why_refused (good (pair_of entry.now)) (fits_in F.form (M.stored self.now.memory) self.now.used (pair_of entry.now)) }
    {
        if !is_good(entry) {
            return Err(Reason::NotTuning);
        }
        if line_size::<F>(entry) > self.unused() {
            return Err(Reason::DoesNotFit);
        }
        Ok(())
    }

    // How many bytes are not used.
    fn unused(&self) -> usize
        ensures { result ≡ unused (M.stored self.now.memory) self.now.used }
    {
        self.memory.as_bytes().len() - self.used
    }

    // Whether an entry is good and its line fits in the unused bytes.
    fn takes(&self, entry: &Entry<'_>) -> bool
        ensures { result ≡ fits_in F.form (M.stored self.now.memory) self.now.used (pair_of entry.now) }
    {
        self.check(entry).is_ok()
    }

    // Adds the line of an entry, or says why not.
    fn append(&mut self, entry: &Entry<'_>) -> Result<(), Reason>
        ensures answer { refused_with result ≡ why_refused (good (pair_of entry.now)) (fits_in F.form (M.stored self.old.memory) self.old.used (pair_of entry.now)) }
        ensures added { OnOk result (Added (λ s. means F.form (M.stored s.memory) s.used) (λ s p. fits_in F.form (M.stored s.memory) s.used p) (λ s p t. Appended F.form (M.stored s.memory) s.used p (M.stored t.memory) t.used) self.old (pair_of entry.now) self.new) }
        ensures same { OnErr result (self.new ≡ self.old) }
    {
        self.check(entry)?;
        let end = put_line::<_, F>(&mut self.memory, self.used, entry);
        self.used = end;
        Ok(())
    }
}
