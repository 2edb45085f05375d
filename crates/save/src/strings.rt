// Names among the strings of a symbol table.
ghost use Rattle.std.specs.Prelude.{◌≡◌, ◌+◌, true, List, [], ◌∷◌, ◌++◌, length, take};
ghost use Rattle.std.specs.Iterator.{at_most};
ghost use Rattle.steps.specs.Steps.{Name};
ghost use Rattle.steps.specs.Utf8.{no_zero};
ghost use Rattle.redbin.specs.Bytes.{same, fill};
ghost use Rattle.redbin.specs.Canonical.{strings, index_of};
ghost use Rattle.save.specs.Symbols.{Clean, TakesStored};

// How many zeros follow a name: at least one, and as many as fill its string to a multiple of 8 bytes.
pub fn zeros_after(name: &[u8]) -> usize
    ensures { result ≡ 1 + fill 8 (length name.now + 1) }
{
    8 - name.len() % 8
}

// The stored names that these bytes are made of, each with the zeros behind it.
#[derive(Drop)]
struct StoredNames<'a>(&'a [u8]);

impl<'a> Iterator for StoredNames<'a> {
    type Item = &'a [u8];

    ghost remaining = { λ s. at_most (length s.0.now) };

    ghost next_gives = { λ s r t. TakesStored s.0.now r t.0.now };

    // A name ends in the first 8 bytes whose last is zero, so only every eighth byte is read.
    #[inline(always)]
    fn next(&mut self) -> Option<&'a [u8]> {
        let before = self
            .0
            .chunks_exact(8)
            .position(|eight| eight.last() == Some(&0))?;
        let (stored, rest) = self.0.split_at(8 * before + 8);
        self.0 = rest;
        Some(stored)
    }
}

// Whether these bytes begin with the name and a zero.
fn begins_with(stored: &[u8], name: &[u8]) -> bool
    ensures { result ≡ same (take (length name.now + 1) stored.now) (name.now ++ 0 ∷ []) }
{
    let size = name.len();
    stored.get(size) == Some(&0) && &stored[..size] == name
}

// The index of a name among the names that the strings are made of.
pub fn index_in(bytes: &[u8], name: &[u8]) -> usize
    ensures { (names : List Name) → bytes.now ≡ strings names → Clean names → no_zero name.now ≡ true → result ≡ index_of names name.now }
{
    StoredNames(bytes)
        .take_while(|stored| !begins_with(stored, name))
        .count()
}
