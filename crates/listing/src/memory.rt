ghost use Rattle.std.specs.Prelude.{◌≡◌, ℕ, ◌+◌, ◌≤◌, List, length};
ghost use Rattle.listing.specs.Memory.{written};

// Memory that is lent. A bound, so that `Lines` names no lifetime.
pub trait Memory: Drop {
    // its bytes
    ghost stored: { Self → List ℕ };

    fn as_bytes(&self) -> &[u8]
        ensures { result.now ≡ stored self.now };

    // Writes the bytes over what stands at `at`, and says where they end.
    fn put(&mut self, at: usize, bytes: &[u8]) -> usize
        requires { at + length bytes.now ≤ length (stored self.old) }
        ensures after { stored self.new ≡ written (stored self.old) at bytes.now }
        ensures len { length (stored self.new) ≡ length (stored self.old) }
        ensures end { result ≡ at + length bytes.now };
}

impl Memory for &mut [u8] {
    ghost stored = { λ m. m.now };

    fn as_bytes(&self) -> &[u8] {
        &**self
    }

    fn put(&mut self, at: usize, bytes: &[u8]) -> usize
        requires { at + length bytes.now ≤ length self.old.now }
        ensures after { self.new.now ≡ written self.old.now at bytes.now }
        ensures len { length self.new.now ≡ length self.old.now }
        ensures end { result ≡ at + length bytes.now }
    {
        let end = at + bytes.len();
        self[at..end].copy_from_slice(bytes);
        end
    }
}
