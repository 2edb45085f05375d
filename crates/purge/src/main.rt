// Turns a list of purge delays into the lines of the C header and the lines of the manual's table.
#![tactic(auto)]

use delays::{Fault, MOST, read_entries};
use listing::lines::{HeaderListing, TableListing};
use listing::pairs::Entry;
use listing::{Listing, give_both};
use std::io;
use std::io::Write;
use std::process::ExitCode;

mod delays;

// Gives the entries to both listings and prints them, with a last line that says what was listed.
fn print_both(rt: &HostRuntime, entries: &[Entry]) -> anyhow::Result<ExitCode> {
    let count = entries.len().min(MOST);
    let mut header_memory = vec![in rt.alloc(); 0u8; count
        * <HeaderListing<'_> as Listing>::LONGEST]?;
    let mut table_memory = vec![in rt.alloc(); 0u8; count
        * <TableListing<'_> as Listing>::LONGEST]?;
    let mut header = HeaderListing::new(&mut header_memory);
    let mut table = TableListing::new(&mut table_memory);
    if let Err(reason) = give_both(entries, &mut header, &mut table) {
        let number = reason.number();
        println!(rt; "refused {number}")?;
        return Ok(ExitCode::FAILURE);
    }
    let lines = header.text();
    let rows = table.text();
    let mut out = rt.stdout();
    out.write_all(lines)?;
    out.write_all(rows)?;
    println!(rt;
        "{count} delays, {} bytes of header, {} bytes of table",
        lines.len(),
        rows.len()
    )?;
    Ok(ExitCode::SUCCESS)
}

fn run(rt: &HostRuntime) -> anyhow::Result<ExitCode> {
    let text = io::read_to_string(rt.alloc(), rt.stdin())?;
    match read_entries(rt.alloc(), text.as_str()) {
        Ok(entries) => print_both(rt, entries.as_slice()),
        Err(Fault::Memory(failure)) => Err(failure.into()),
        Err(fault) => {
            println!(rt; "{fault}")?;
            Ok(ExitCode::FAILURE)
        }
    }
}

fn main(rt: HostRuntime) -> anyhow::Result<ExitCode> {
    run(&rt)
}
