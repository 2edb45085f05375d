ghost use Rattle.std.specs.Prelude.{◌≡◌, ℕ, ◌+◌, ◌^◌, ◌<◌, ◌≤◌, min, [], ◌∷◌, ◌++◌, length, take, drop, nat_le, slice_index_or, slice_set};

use crate::parts::Span;

// The first `used` elements of a memory that its owner lends. It never uses more than `bound`. No `Vec`: a draft has no heap.
#[derive(Drop)]
pub struct Pile<'a, T> {
    pub(crate) memory: &'a mut [T],
    used: usize,
    bound: usize,
    pub ghost within: { used ≤ length memory.now },
    pub ghost bounded: { used ≤ bound },
    // numbers of elements fit 32 bits
    pub ghost small: { bound < 2 ^ 32 },
}

impl<'a, T: Copy> Pile<'a, T> {
    ghost use Rattle.steps.specs.Items.{items, free, Sized, room};

    pub fn new(memory: &'a mut [T], bound: u32) -> Pile<'a, T>
        ensures items { items result ≡ [] }
        ensures lent { length result.memory.now ≡ length memory.old }
        ensures bound { result.bound ≡ bound }
    {
        Pile {
            memory,
            used: 0,
            bound: bound as usize,
        }
    }

    // How many are in use.
    pub fn count(&self) -> u32
        ensures { result ≡ length (items self.now) }
    {
        self.used as u32
    }

    // Whether there is room for so many more.
    pub fn takes(&self, more: usize) -> bool
        ensures { result ≡ nat_le (length (items self.now) + more) (room self.now) }
    {
        let usable = self.memory.len().min(self.bound);
        more <= usable - self.used
    }

    // Adds elements at the end.
    pub fn append(&mut self, more: &[T])
        requires { length (items self.old) + length more.now ≤ room self.old }
        ensures sized { Sized self.old self.new }
        ensures items { items self.new ≡ items self.old ++ more.now }
    {
        let used = self.used;
        let end = used + more.len();
        let part = &mut self.memory[used..end];
        part.copy_from_slice(more);
        self.used = end;
    }

    // Copies elements into free memory, where they are not in use yet.
    pub fn copy_free(&mut self, xs: &[T])
        requires { length (items self.old) + length xs.now ≤ room self.old }
        ensures sized { Sized self.old self.new }
        ensures items { items self.new ≡ items self.old }
        ensures free { take (length xs.now) (free self.new) ≡ xs.now }
    {
        let used = self.used;
        let end = used + xs.len();
        self.memory[used..end].copy_from_slice(xs);
    }

    // Adds one element at the end.
    pub fn push(&mut self, x: T)
        requires { length (items self.old) + 1 ≤ room self.old }
        ensures sized { Sized self.old self.new }
        ensures items { items self.new ≡ items self.old ++ (x ∷ []) }
    {
        let used = self.used;
        self.memory[used] = x;
        self.used = used + 1;
    }

    // Writes an element into free memory, where it is not in use yet.
    pub fn write_free(&mut self, at: u32, x: T)
        requires { length (items self.old) + at < room self.old }
        ensures sized { Sized self.old self.new }
        ensures items { items self.new ≡ items self.old }
        ensures free { free self.new ≡ slice_set (free self.old) at x }
    {
        let place = self.used + at as usize;
        self.memory[place] = x;
    }

    // Adds the first elements of free memory at the end.
    pub fn extend(&mut self, more: u32)
        requires { length (items self.old) + more ≤ room self.old }
        ensures sized { Sized self.old self.new }
        ensures items { items self.new ≡ items self.old ++ take more (free self.old) }
    {
        self.used += more as usize;
    }

    // Cuts back to the first `to`.
    pub fn cut(&mut self, to: u32)
        requires { to ≤ length (items self.old) }
        ensures sized { Sized self.old self.new }
        ensures items { items self.new ≡ take to (items self.old) }
    {
        self.used = to as usize;
    }

    pub fn get(&self, at: u32) -> T
        requires { at < length (items self.now) }
        ensures { (d : T) → result ≡ slice_index_or (items self.now) at d }
    {
        let memory = &*self.memory;
        memory[at as usize]
    }

    // The same where it stands, not copied.
    pub fn at(&self, at: u32) -> &T
        requires { at < length (items self.now) }
        ensures { (d : T) → result.now ≡ slice_index_or (items self.now) at d }
    {
        let memory = &*self.memory;
        &memory[at as usize]
    }

    // A part of those in use.
    pub fn part(&self, span: Span) -> &[T]
        requires { span.start + span.len ≤ length (items self.now) }
        ensures { result.now ≡ take span.len (drop span.start (items self.now)) }
    {
        let begin = span.start as usize;
        let end = begin + span.len as usize;
        &self.memory[begin..end]
    }
}
