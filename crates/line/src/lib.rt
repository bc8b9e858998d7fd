// The line reader: wire bytes to packets, one outcome at a time (document 01, "From wire to packet").
// The rules are specs/Reader.antt. Each call answers as they say (specs/Answers.antt), on a lent record too (specs/Lent.antt).
// It stands on nothing.
#![tactic(auto)]

mod counting;
mod lent;
mod reader;
mod step;

pub use counting::{escapes, places_at, width};
pub use lent::read_packet;
pub use reader::{emptied, read, read_in};
pub use step::taken_cursor;

// RFC 1055.
pub const END: u8 = 192;

pub const ESC: u8 = 219;

// After ESC, what stands for END and for ESC.
pub const ESC_END: u8 = 220;

pub const ESC_ESC: u8 = 221;

// How many decoded bytes a reading holds.
pub const LIMIT: usize = 255;

// A byte's place, told twice, both from 0 (document 02, CR 2): among the wire bytes since the last END, and among the decoded bytes.
// Each is a type of its own, so that comparing one with the other does not check. None that bytes leave is above 511.
#[derive(Clone, Copy)]
pub struct WirePlace(pub u16);

#[derive(Clone, Copy)]
pub struct DecodedPlace(pub u16);

#[derive(Clone, Copy)]
pub struct Places {
    pub wire: WirePlace,
    pub decoded: DecodedPlace,
}

// What settles a piece before its END.
#[derive(Clone, Copy)]
pub enum Fault {
    WrongEscape,
    TooLong,
}

// The same, with where it is.
#[derive(Clone, Copy)]
pub struct FaultAt {
    pub fault: Fault,
    pub at: Places,
}

// Where a reading stands in its piece: between whole bytes, right after an ESC, or in the rest of a settled piece.
#[derive(Clone, Copy)]
pub enum Mode {
    Plain,
    Escaped,
    Skipping(FaultAt),
}

// Document 01's reading state: the open piece's decoded bytes are the first `count` of `bytes`.
#[derive(Clone, Copy)]
pub struct Reading {
    pub bytes: [u8; LIMIT],
    pub count: usize,
    pub mode: Mode,
}

// A reading apart from its bytes.
#[derive(Clone, Copy)]
pub struct Cursor {
    pub count: usize,
    pub mode: Mode,
}

// What the bytes came to. A packet's decoded bytes are the first ones of the reading's `bytes`, as many as it says.
// Stays: three cases; as an Option of a Result each match on it would have two layers, no plainer.
#[derive(Clone, Copy)]
pub enum PacketOutcome {
    Nothing,
    Packet(usize),
    Refused(FaultAt),
}

// What a call of a reader answers: how many bytes it used, what they came to, and the reading that is left.
#[derive(Clone, Copy)]
pub struct Answer<O> {
    pub used: usize,
    pub outcome: O,
    pub reading: Reading,
}

// An answer apart from its bytes.
#[derive(Clone, Copy)]
pub struct AnswerAt<O> {
    pub used: usize,
    pub outcome: O,
    pub cursor: Cursor,
}

// An answer apart from its reading, which lies where it was lent.
#[derive(Clone, Copy)]
pub struct Told<O> {
    pub used: usize,
    pub outcome: O,
}
