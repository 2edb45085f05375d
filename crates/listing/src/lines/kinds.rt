// The two kinds that are supplied. An impl each, and none for every form: only so can a clause cite the constant of a kind whose
// type names a lifetime.
ghost use Rattle.std.specs.Prelude.{◌≡◌};
ghost use Rattle.listing.specs.Forms.{header, table};
ghost use Rattle.listing.specs.Memory.{unused, means, fits_in, Appended};
ghost use Rattle.listing.specs.Sizes.{fits_longest};
ghost use Rattle.std.proofs.Common.{rules};

use crate::Listing;
use crate::forms::{Header, LineForm, Table};
use crate::lines::{HeaderListing, TableListing};
use crate::pairs::Entry;
use refusal::Reason;

// `LONGEST` of each kind, as the clauses of `longest_entry` cite it.
const HEADER_LONGEST: usize = <HeaderListing<'static> as Listing>::LONGEST;

const TABLE_LONGEST: usize = <TableListing<'static> as Listing>::LONGEST;

impl<'a> Listing for HeaderListing<'a> {
    const LONGEST: usize = Header::LONGEST;

    ghost meaning = { λ s. means header s.memory.now s.used };

    ghost room = { λ s. unused s.memory.now s.used };

    ghost holds = { λ s p. fits_in header s.memory.now s.used p };

    ghost longest = { 86 };

    ghost leaves = { λ s p t. Appended header s.memory.now s.used p t.memory.now t.used };

    ghost roomy = { λ s p h k. fits_longest header s.memory.now s.used p h k };

    ghost sure = { Prim.search rules };

    fn longest_entry() -> usize
        ensures value { result ≡ 86 }
        ensures constant { result ≡ HEADER_LONGEST }
    {
        Self::LONGEST
    }

    fn spare(&self) -> usize {
        self.unused()
    }

    fn fits(&self, entry: &Entry<'_>) -> bool {
        self.takes(entry)
    }

    fn add(&mut self, entry: &Entry<'_>) -> Result<(), Reason> {
        self.append(entry)
    }
}

impl<'a> Listing for TableListing<'a> {
    const LONGEST: usize = Table::LONGEST;

    ghost meaning = { λ s. means table s.memory.now s.used };

    ghost room = { λ s. unused s.memory.now s.used };

    ghost holds = { λ s p. fits_in table s.memory.now s.used p };

    ghost longest = { 75 };

    ghost leaves = { λ s p t. Appended table s.memory.now s.used p t.memory.now t.used };

    ghost roomy = { λ s p h k. fits_longest table s.memory.now s.used p h k };

    ghost sure = { Prim.search rules };

    fn longest_entry() -> usize
        ensures value { result ≡ 75 }
        ensures constant { result ≡ TABLE_LONGEST }
    {
        Self::LONGEST
    }

    fn spare(&self) -> usize {
        self.unused()
    }

    fn fits(&self, entry: &Entry<'_>) -> bool {
        self.takes(entry)
    }

    fn add(&mut self, entry: &Entry<'_>) -> Result<(), Reason> {
        self.append(entry)
    }
}
