// The frame layer: packets to frames and back (document 01, "From packet to frame").
// The rules are specs/Frame.antt. Each call answers as they say: specs/Answers.antt (judging, reading), specs/Lent.antt,
// specs/Writer.antt and specs/View.antt. It stands on what the line reader states, and on the store. What the crates above need of the
// line reader beside the record's types is passed on here.
#![tactic(auto)]

mod checks;
mod lent;
mod reader;
mod view;
mod writer;

pub use checks::{judge, number};
pub use lent::read_frame;
use line::Places;
pub use line::{Answer, AnswerAt, END, ESC, LIMIT, Told, taken_cursor};
pub use reader::{emptied, read, read_in};
pub use view::{View, broken_at, command, data, refusal, show};
pub use writer::{measure, write, write_at};

// The greatest number of data bytes, and room in which every frame fits.
pub const DATA: usize = 250;

pub const ROOM: usize = 512;

// Where the data begin in a frame, and how many bytes stand around them.
pub const HEAD: usize = 4;

pub const AROUND: usize = 5;

// Why a packet is refused, in the order in which it is judged: a frame below its length byte's claim is shorter than it, one beyond it longer.
#[derive(Clone, Copy)]
pub enum Cause {
    WrongEscape,
    TooLong,
    TooShort,
    WrongProtocol,
    BelowLength,
    BeyondLength,
    WrongCheck,
}

// A packet refusal: why, and where.
#[derive(Clone, Copy)]
pub struct PacketRefusal {
    pub cause: Cause,
    pub at: Places,
}

// A packet that is a frame: its data are `len` bytes of it from `start` on.
#[derive(Clone, Copy)]
pub struct AcceptedFrame {
    pub command: u16,
    pub start: usize,
    pub len: usize,
}

// What wire bytes came to. A frame's data are `len` bytes of the reading's `bytes` from `HEAD` on; its whole packet is the first
// `len + AROUND` of them.
// Stays: three cases; as an Option of a Result each match on it would have two layers, no plainer.
#[derive(Clone, Copy)]
pub enum FrameOutcome {
    Nothing,
    Frame { command: u16, len: usize },
    Refused(PacketRefusal),
}

// Why a frame is not written: the room, behind the place where it would begin, is shorter than its wire form, or the data are longer than `DATA`.
// Of `write` short room is document 01's refusal 9; of `write_at` it has no number there (specs/Writer.antt: told, told_at, no_fit).
#[derive(Clone, Copy, PartialEq, Eq, Debug)]
pub enum WriteRefusal {
    ShortRoom,
    LongData,
}

// Data longer than `DATA`, of which there is no frame.
#[derive(Clone, Copy, PartialEq, Eq, Debug)]
pub struct LongData;
