// Where bytes go: counted only, or written into memory that is lent.
ghost use Rattle.std.specs.Prelude.{◌≡◌, []};
ghost use Rattle.save.specs.Sinks.{Output, push};
ghost use Rattle.save.specs.Symbols.{Indexed};

use crate::strings::index_in;
use redbin::layout::LARGEST_FILE;

// One byte more than the longest file. Where so many have gone, further bytes are dropped.
const FULL: usize = LARGEST_FILE + 1;

// Takes bytes, one after another.
pub trait Sink {
    ghost output: { Self → Output };

    fn push(&mut self, byte: u8)
        ensures { output self.new ≡ push (output self.old) byte };

    // How many bytes have come.
    fn size(&self) -> usize
        ensures { result ≡ (output self.now).size };

    // The index of a name, as far as it matters here, where the strings of the symbol table have been written.
    fn index(&self, table: Strings, name: &[u8]) -> usize
        ensures { Indexed (output self.now) table.start table.end name.now result };
}

// Where the strings of the symbol table stand among the bytes. Not a `Range`, which is not `Copy`.
#[derive(Clone, Copy)]
pub struct Strings {
    pub start: usize,
    pub end: usize,
}

// Counts the bytes.
#[derive(Drop)]
pub struct Counter {
    count: usize,
}

impl Counter {
    // No byte yet.
    pub fn new() -> Counter
        ensures { result.count ≡ 0 }
    {
        Counter { count: 0 }
    }
}

impl Sink for Counter {
    ghost output = { λ s. record { home = 0; size = s.count; memory = [] } };

    fn push(&mut self, _byte: u8) {
        if self.count < FULL {
            self.count += 1;
        }
    }

    fn size(&self) -> usize {
        self.count
    }

    fn index(&self, _table: Strings, _name: &[u8]) -> usize {
        0
    }
}

// Writes the bytes into memory that is lent, as far as it reaches.
// How much is used stands beside the memory, since all memory is lent.
#[derive(Drop)]
pub struct Writer<'a> {
    memory: &'a mut [u8],
    used: usize,
}

impl<'a> Writer<'a> {
    // Nothing written yet.
    pub fn new(memory: &'a mut [u8]) -> Writer<'a>
        ensures name { result.memory.ghost_name ≡ memory.entry.ghost_name }
        ensures memory { result.memory.now ≡ memory.old }
        ensures used { result.used ≡ 0 }
    {
        Writer { memory, used: 0 }
    }
}

impl<'a> Sink for Writer<'a> {
    ghost output = { λ s. record { home = s.memory.ghost_name; size = s.used; memory = s.memory.now } };

    fn push(&mut self, byte: u8) {
        let at = self.used;
        if at < FULL {
            if at < self.memory.len() {
                self.memory[at] = byte;
            }
            self.used = at + 1;
        }
    }

    fn size(&self) -> usize {
        self.used
    }

    fn index(&self, table: Strings, name: &[u8]) -> usize {
        let memory = &*self.memory;
        match memory.get(table.start..table.end) {
            Some(strings) => index_in(strings, name),
            None => 0,
        }
    }
}
