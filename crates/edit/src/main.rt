// Runs a script of calls on a draft, and answers each with one line.
#![tactic(auto)]

use command::{Command, FULL, Kind, Sizes, read_command, read_memory, words_of};
use document::store::Memories;
use gillsieve::draft::Draft;
use listing::Listing;
use listing::forms::{Header, LineForm, Table};
use listing::lines::Lines;
use refusal::Refusal;
use std::io;
use std::io::Write;
use steps::parts::{Begun, FREE, Label};
use words::Unread;

mod command;
mod words;

// Each arm makes another call with arguments of its own, here and in `perform`, so a table of calls would be no plainer.
fn begin(draft: &mut Draft<'_>, label: Label<'_>, begun: &Begun<Vec<u32>>) -> Result<u32, Refusal> {
    match begun {
        Begun::Put(content) => draft.put(label, content.as_ref().map(|points| points.as_slice())),
        Begun::Open(holder) => draft.open(label, *holder),
        Begun::Share(share, target) => draft.share(label, *share, *target),
    }
}

// How many bytes are written as digits at once.
const PIECE: usize = 1024;

fn answer(rt: &HostRuntime, done: Result<(), Refusal>) -> io::Result<()> {
    match done {
        Ok(()) => println!(rt; "accepted"),
        Err(refusal) => println!(rt; "{refusal}"),
    }
}

// Writes two hexadecimal digits for each byte, piece by piece, so that no file needs memory for all its digits.
fn write_hex<W: Write>(out: &mut W, bytes: &[u8]) -> anyhow::Result<()> {
    let mut digits = [0u8; 2 * PIECE];
    for piece in bytes.chunks(PIECE) {
        if let Some(text) = digits.get_mut(..2 * piece.len()) {
            hex::encode_to_slice(piece, text)?;
            out.write_all(text)?;
        }
    }
    Ok(())
}

// Saves into an output of this size, and prints the file that was written.
fn save(rt: &HostRuntime, draft: &Draft<'_>, room: usize) -> anyhow::Result<()> {
    let mut output = vec![in rt.alloc(); 0u8; room]?;
    match draft.save(&mut output) {
        Ok(length) => {
            print!(rt; "accepted {length} x")?;
            write_hex(
                &mut rt.stdout(),
                output.as_slice().get(..length).unwrap_or(&[]),
            )?;
            println!(rt)?;
        }
        Err(refusal) => println!(rt; "{refusal}")?,
    }
    Ok(())
}

// Prints into a fresh listing of this form: the answer, and the lines that the listing has then.
fn print_lines<'m, F: LineForm>(
    rt: &HostRuntime,
    draft: &Draft<'_>,
    memory: &'m mut [u8],
) -> anyhow::Result<()>
where
    Lines<&'m mut [u8], F>: Listing,
{
    let mut listing = Lines::<&'m mut [u8], F>::new(memory);
    answer(rt, draft.print(&mut listing))?;
    rt.stdout().write_all(listing.text())?;
    Ok(())
}

// Prints into a listing of this kind and size.
fn print(rt: &HostRuntime, draft: &Draft<'_>, kind: Kind, room: usize) -> anyhow::Result<()> {
    let mut memory = vec![in rt.alloc(); 0u8; room]?;
    match kind {
        Kind::Header => print_lines::<Header>(rt, draft, &mut memory),
        Kind::Table => print_lines::<Table>(rt, draft, &mut memory),
    }
}

// Makes the call, and prints its answer.
fn perform(rt: &HostRuntime, draft: &mut Draft<'_>, command: &Command) -> anyhow::Result<()> {
    match command {
        Command::Begin {
            new_line,
            name,
            begun,
        } => {
            let label = Label {
                new_line: *new_line,
                name: name.as_slice(),
            };
            match begin(draft, label, begun) {
                Ok(number) => println!(rt; "accepted {number}")?,
                Err(refusal) => println!(rt; "{refusal}")?,
            }
        }
        Command::Close => answer(rt, draft.close())?,
        Command::TakeBack => answer(rt, draft.take_back())?,
        Command::Load(file) => answer(rt, draft.load(file.as_slice()))?,
        Command::Save { room } => save(rt, draft, *room)?,
        Command::Print { kind, room } => print(rt, draft, *kind, *room)?,
    }
    Ok(())
}

fn is_passed_over(line: &str) -> bool {
    line.is_empty() || line.starts_with('#')
}

// Runs the lines from `start` on with a new draft, up to the next line that asks for memory.
fn session(rt: &HostRuntime, lines: &[&str], start: usize, sizes: Sizes) -> anyhow::Result<()> {
    let mut cells = vec![in rt.alloc(); FREE; sizes.cells]?;
    let mut codepoints = vec![in rt.alloc(); 0u32; sizes.codepoints]?;
    let mut names = vec![in rt.alloc(); 0u8; sizes.names]?;
    let mut draft = Draft::new(Memories {
        cells: &mut cells,
        codepoints: &mut codepoints,
        names: &mut names,
    });
    for (at, line) in lines.iter().enumerate().skip(start) {
        if is_passed_over(line) {
            continue;
        }
        let words = words_of(rt.alloc(), line)?;
        if read_memory(words.as_slice()).is_some() {
            if at > start {
                break;
            }
            println!(rt; "accepted")?;
            continue;
        }
        match read_command(rt.alloc(), words.as_slice()) {
            Ok(command) => perform(rt, &mut draft, &command)?,
            Err(Unread::Unknown) => {
                println!(rt; "unknown command at line {}", at.saturating_add(1))?;
            }
            Err(Unread::Memory(failure)) => return Err(failure.into()),
        }
    }
    Ok(())
}

fn run(rt: &HostRuntime) -> anyhow::Result<()> {
    let text = io::read_to_string(rt.alloc(), rt.stdin())?;
    let lines: Vec<&str> = text.lines().collect(rt.alloc())?;
    for (at, line) in lines.iter().enumerate() {
        let words = words_of(rt.alloc(), line)?;
        match read_memory(words.as_slice()) {
            Some(sizes) => session(rt, lines.as_slice(), at, sizes)?,
            None if at == 0 => session(rt, lines.as_slice(), at, FULL)?,
            None => (),
        }
    }
    Ok(())
}

fn main(rt: HostRuntime) -> anyhow::Result<()> {
    run(&rt)
}
