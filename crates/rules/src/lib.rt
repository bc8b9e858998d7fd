// The hub's rules: its state, its answers, and what each request and each call does (document 01; specs/Hub.antt). What the calls promise is
// specs/Promises.antt, an answer's number specs/Answers.antt. Its code: the lines, who is logged in, the numbers of the refusals, and
// an answer by value on a lent record.
// It stands on what the frame layer, the directory, the node table, the sessions and the lists of feeds state.
#![tactic(auto)]

mod lent;
mod lines;
mod logins;
mod refusals;

use frame::FrameOutcome;
use line::{Cursor, Reading};
pub use lines::SerialLine;
pub use logins::is_logged_in;
pub use refusals::number;

// Serial lines.
pub const LINES: usize = 4;

// The hub's state: a line is logged in exactly if its number in `logins` is 1; `slots` is the session table. The node table is lent to each
// call; the reading states are the serial service's.
// Stays: `logins` are bytes and not `bool`s, since a hub may come from any memory, and each byte has a meaning (specs/Hub.antt: is_listed).
#[derive(Clone, Copy)]
pub struct Hub {
    pub password: [u8; passwords::PASSWORD],
    pub logins: [u8; LINES],
    pub slots: [u8; sessions::TABLE],
}

// Why a call is refused, with document 01's number.
#[derive(Clone, Copy, PartialEq, Eq, Debug)]
pub enum CallRefusal {
    WrongTable = 7,
    WrongLine = 8,
    ShortRoom = 9,
    WrongNode = 11,
    NodeInUse = 12,
    NotOpen = 13,
    WrongPassword = 14,
}

// What finish tells: the session's line, and the length of the notice at the room's front.
#[derive(Clone, Copy)]
pub struct Notice {
    pub line: u8,
    pub len: usize,
}

// What feed tells: bytes used, the outcome, and the length of the reply at the room's front. A frame's data stand in the record's bytes.
#[derive(Clone, Copy)]
pub struct Told {
    pub used: usize,
    pub outcome: FrameOutcome,
    pub len: usize,
}

// A call's answer, and the hub that it leaves. Start and close tell nothing.
#[derive(Clone, Copy)]
pub struct Answered<T> {
    pub answer: Result<T, CallRefusal>,
    pub hub: Hub,
}

// The same with the record that the call was lent.
#[derive(Clone, Copy)]
pub struct AnsweredByValue<T> {
    pub answer: Result<T, CallRefusal>,
    pub hub: Hub,
    pub reading: Reading,
}

// A feed whose record's bytes lie where they were lent.
#[derive(Clone, Copy)]
pub struct FedAt {
    pub answer: Result<Told, CallRefusal>,
    pub hub: Hub,
    pub cursor: Cursor,
}
