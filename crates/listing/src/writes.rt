// The lines that are written.
ghost use Rattle.std.specs.Prelude.{◌≡◌, ◌+◌, ◌≤◌, true, ◌++◌, length};
ghost use Rattle.listing.specs.Pairs.{pair_of, good};
ghost use Rattle.listing.specs.Forms.{line, delay_text};
ghost use Rattle.listing.specs.Memory.{written};

use crate::forms::LineForm;
use crate::memory::Memory;
use crate::pairs::Entry;
use itoa::Buffer;

// The text of an entry's delay in two parts, of which the second is the unit. `digits` has room for the digits.
fn delay_parts<'t, F: LineForm>(entry: &Entry<'_>, digits: &'t mut Buffer) -> (&'t [u8], &'t [u8])
    ensures text { result.0.now ++ result.1.now ≡ delay_text F.form entry.now.delay }
    ensures size { length result.0.now + length result.1.now ≡ length (delay_text F.form entry.now.delay) }
{
    if entry.delay < 0 {
        (F::never(), b"")
    } else {
        (
            digits.format(entry.delay.unsigned_abs()).as_bytes(),
            F::unit(),
        )
    }
}

// How many bytes the line of a good entry has.
#[tactic(auto, using(crate::specs::Sizes::length_line, crate::specs::Sizes::line_short))]
pub(crate) fn line_size<F: LineForm>(entry: &Entry<'_>) -> usize
    requires { good (pair_of entry.now) ≡ true }
    ensures { result ≡ length (line F.form (pair_of entry.now)) }
{
    let mut digits = Buffer::new();
    let (time, unit) = delay_parts::<F>(entry, &mut digits);
    F::head().len() + entry.name.len() + 1 + time.len() + unit.len() + 1
}

// Writes the line of an entry at `at`, and says where it ends.
#[tactic(auto, using(crate::specs::Sizes::length_line))]
pub(crate) fn put_line<M: Memory, F: LineForm>(
    memory: &mut M,
    at: usize,
    entry: &Entry<'_>,
) -> usize
    requires { at + length (line F.form (pair_of entry.now)) ≤ length (M.stored memory.old) }
    ensures after { M.stored memory.new ≡ written (M.stored memory.old) at (line F.form (pair_of entry.now)) }
    ensures end { result ≡ at + length (line F.form (pair_of entry.now)) }
{
    let mut digits = Buffer::new();
    let (time, unit) = delay_parts::<F>(entry, &mut digits);
    let at = memory.put(at, F::head());
    let at = memory.put(at, entry.name);
    let at = memory.put(at, &[F::gap()]);
    let at = memory.put(at, time);
    let at = memory.put(at, unit);
    memory.put(at, b"\n")
}
