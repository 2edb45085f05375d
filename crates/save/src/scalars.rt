// Records of values that hold no others.
ghost use Rattle.std.specs.Prelude.{◌≡◌, ℕ, ◌≤◌, List};
ghost use Rattle.steps.specs.Steps.{put, float, text};
ghost use Rattle.steps.specs.Outline.{Entry};
ghost use Rattle.steps.specs.Given.{tag, content};
ghost use Rattle.redbin.specs.Bytes.{all_below};
ghost use Rattle.redbin.specs.Canonical.{narrowest, padding, record_of};
ghost use Rattle.save.specs.Sinks.{Gained};
ghost use Rattle.save.specs.Records.{Placed};

use crate::fields::{bytes, fields, length, words, zeros};
use crate::sink::Sink;
use redbin::form::Form;
use redbin::layout::{ONE_BYTE_END, PADDING_HEADER, TWO_BYTES_END};
use redbin::width::Width;
use steps::parts::{Label, TextKind, Value};

fn all_below(limit: u32, points: &[u32]) -> bool
    ensures { result ≡ all_below limit points.now }
{
    points.iter().all(|point| *point < limit)
}

// The narrowest width that every codepoint of a text has.
#[tactic(auto, unfolding(redbin::specs::Canonical::narrowest))]
fn narrowest(points: &[u32]) -> Width
    ensures { result ≡ narrowest points.now }
{
    if all_below(ONE_BYTE_END, points) {
        Width::One
    } else if all_below(TWO_BYTES_END, points) {
        Width::Two
    } else {
        Width::Four
    }
}

fn text<S: Sink>(sink: &mut S, label: Label<'_>, kind: TextKind, head: u32, points: &[u32])
    ensures { (all before : List Entry) (place : ℕ) → Gained S.Sink.output sink.old (record_of all before place (tag label.entry) (put (text kind head points.now))) sink.new }
{
    let unit = narrowest(points);
    words(
        sink,
        &[Form::Text { kind, unit }.header(label.new_line), head],
    );
    length(sink, points.len());
    fields(sink, unit, points);
    let last = unit.bytes() as usize * (points.len() % 4);
    zeros(sink, last.next_multiple_of(4) - last);
}

// Padding before a float, in a payload that starts behind so many bytes.
fn padding<S: Sink>(sink: &mut S, start: usize)
    requires { start ≤ (S.Sink.output sink.old).size }
    ensures { (place : ℕ) → Placed (S.Sink.output sink.old) start place → Gained S.Sink.output sink.old (padding place) sink.new }
{
    if (sink.size() - start) % 8 == 0 {
        words(sink, &[PADDING_HEADER]);
    }
}

fn float<S: Sink>(sink: &mut S, start: usize, label: Label<'_>, bits: u64)
    requires { start ≤ (S.Sink.output sink.old).size }
    ensures { (all before : List Entry) (place : ℕ) → Placed (S.Sink.output sink.old) start place → Gained S.Sink.output sink.old (record_of all before place (tag label.entry) (put (float bits))) sink.new }
{
    padding(sink, start);
    words(sink, &[Form::Float.header(label.new_line)]);
    bytes(sink, &bits.to_le_bytes());
}

// Writes the record of a value that holds no others.
pub fn put<S: Sink>(sink: &mut S, start: usize, label: Label<'_>, value: Value<'_>)
    requires { start ≤ (S.Sink.output sink.old).size }
    ensures { (all before : List Entry) (place : ℕ) → Placed (S.Sink.output sink.old) start place → Gained S.Sink.output sink.old (record_of all before place (tag label.entry) (put (content value.entry))) sink.new }
{
    let new_line = label.new_line;
    match value {
        Value::Nothing => words(sink, &[Form::Nothing.header(new_line)]),
        Value::Logic(b) => words(sink, &[Form::Logic.header(new_line), u32::from(b)]),
        Value::Char(point) => words(sink, &[Form::Char.header(new_line), point]),
        Value::Integer(n) => words(sink, &[Form::Integer.header(new_line), n.cast_unsigned()]),
        Value::Float(bits) => float(sink, start, label, bits),
        Value::Text {
            kind,
            head,
            codepoints,
        } => text(sink, label, kind, head, codepoints),
    }
}
