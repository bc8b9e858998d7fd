// Writes the command directory, a line for each entry: number, least and greatest data length.
// It stops where the output is not taken. The lines are made by a proved function of `entries`.
#![tactic(auto)]

pub mod entries;

use directory::Entry;
use std::io::{self, Write};
use text::Page;

// Writes an entry's line.
fn write_entry<W: Write>(output: &mut W, entry: Entry) -> io::Result<()> {
    let mut out = [0; lister::LINE];
    let mut page = Page {
        out: &mut out,
        at: 0,
    };
    crate::entries::entry_line(&mut page, entry);
    output.write_all(page.written())
}

// Writes the whole directory.
fn write_directory<W: Write>(output: &mut W) -> io::Result<()> {
    for place in 0..directory::COUNT {
        if let Some(entry) = directory::entry_at(place) {
            write_entry(output, entry)?;
        }
    }
    Ok(())
}

// An error ends the lines, and is told to nobody.
fn main(rt: HostRuntime) {
    let _ = write_directory(&mut rt.stdout());
}
