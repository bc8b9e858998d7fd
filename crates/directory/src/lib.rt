// The command directory: which commands are known, and how many data bytes each may have (document 01, "The command directory").
// Its entries are specs/Directory.antt; what a call says of a command is the definition's, specs/Lookup.antt.
// It stands on nothing.
#![tactic(auto)]

mod entries;
mod lookup;

pub use entries::COUNT;
pub use lookup::{entry_at, judge};

// A command's number, and the least and the greatest length of its data.
#[derive(Clone, Copy)]
pub struct Entry {
    pub number: u16,
    pub least: u8,
    pub greatest: u8,
}

// Why data may not come under a command: error 1 or error 2 of the error frame.
#[derive(Clone, Copy, PartialEq, Eq, Debug)]
pub enum CommandError {
    Unknown,
    WrongLength,
}
