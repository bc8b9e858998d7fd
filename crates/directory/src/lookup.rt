// A command looked up in the directory.
// Every answer is the definition's: specs/Directory.antt, specs/Lookup.antt.
ghost use Rattle.std.specs.Prelude.{◌≡◌, slice_get};
ghost use Rattle.directory.specs.Directory.{directory};
ghost use Rattle.directory.specs.Lookup.{find, verdict, error_of};

use crate::entries::ENTRIES;
use crate::{CommandError, Entry};

// Whether a command is known, and whether its data have a length in its range.
pub fn judge(command: u16, len: usize) -> Result<(), CommandError>
    ensures { error_of result ≡ verdict command len }
{
    let entry = find(command).ok_or(CommandError::Unknown)?;
    if len < usize::from(entry.least) || usize::from(entry.greatest) < len {
        return Err(CommandError::WrongLength);
    }
    Ok(())
}

// The entry at a place, counted from 0.
pub fn entry_at(place: usize) -> Option<Entry>
    ensures { result ≡ slice_get directory place }
{
    ENTRIES.get(place).copied()
}

// The entry of a command.
fn find(command: u16) -> Option<Entry>
    ensures { result ≡ find command directory }
{
    first(&ENTRIES, command)
}

// The first entry with a number.
fn first(entries: &[Entry], number: u16) -> Option<Entry>
    ensures { result ≡ find number entries.now }
{
    for entry in entries {
        if entry.number == number {
            return Some(*entry);
        }
    }
    None
}
