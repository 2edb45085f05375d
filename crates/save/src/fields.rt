// Fields of bytes, the lowest byte first.
ghost use Rattle.std.specs.Prelude.{[], ◌∷◌};
ghost use Rattle.redbin.specs.Bytes.{fields, words, zeros};
ghost use Rattle.redbin.specs.Layout.{width};
ghost use Rattle.save.specs.Sinks.{Gained};

use crate::sink::Sink;
use redbin::width::Width;

pub fn bytes<S: Sink>(sink: &mut S, bytes: &[u8])
    ensures { Gained S.Sink.output sink.old bytes.now sink.new }
{
    for byte in bytes {
        sink.push(*byte);
    }
}

// Writes zero bytes.
pub fn zeros<S: Sink>(sink: &mut S, count: usize)
    ensures { Gained S.Sink.output sink.old (zeros count) sink.new }
{
    for _ in 0..count {
        sink.push(0);
    }
}

// Writes numbers, each in a field of this width.
pub fn fields<S: Sink>(sink: &mut S, unit: Width, numbers: &[u32])
    ensures { Gained S.Sink.output sink.old (fields (width unit) numbers.now) sink.new }
{
    let size = unit.bytes() as usize;
    for number in numbers {
        bytes(sink, &number.to_le_bytes()[..size]);
    }
}

// Writes fields of four bytes.
pub fn words<S: Sink>(sink: &mut S, numbers: &[u32])
    ensures { Gained S.Sink.output sink.old (words numbers.now) sink.new }
{
    fields(sink, Width::Four, numbers);
}

// Writes a length in a field of four bytes. Not by `words`: that a count fits 32 bits is not known here.
pub fn length<S: Sink>(sink: &mut S, count: usize)
    ensures { Gained S.Sink.output sink.old (words (count ∷ [])) sink.new }
{
    bytes(sink, &count.to_le_bytes()[..4]);
}
