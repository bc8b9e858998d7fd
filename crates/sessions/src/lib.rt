// The open sessions: which line holds which motors (document 01, mode send and host calls).
// Each call's answer, and every byte of the session table that it leaves, are those of specs/Sessions.antt.
// It stands on `nodes` (which nodes are in use, which are removed) and `memory`.
#![tactic(auto)]

ghost use Rattle.std.specs.Prelude.{◌≡◌};
ghost use Rattle.sessions.specs.Sessions.{status_number};

mod closing;
mod finishing;
mod opening;
mod request;
mod slots;
mod targets;

pub use closing::{close_all, close_line, close_removed};
pub use finishing::{finish, line_of};
pub use opening::{has_free, is_held, is_number_open, open_session, open_with, status};
pub use request::mode_send_of;
pub use slots::{is_open, slot_at};
pub use targets::may_command;

// Slots for all lines together, the nodes that a session may hold (0 to 199, a limit of mode send's own), and the bytes that have a bit for
// each of these.
pub const SLOTS: usize = 8;

pub const TARGETS: usize = 200;

pub const MARKS: usize = 25;

// The bytes of a slot: in use, line, number, and its nodes' bits; and those of the session table, all slots.
// Stays: the table is bytes and not an array of `Slot`: tried and slower (docs/DECISIONS.md, "The sessions lie in the hub as bytes").
pub const SLOT: usize = HEAD + MARKS;

pub const TABLE: usize = SLOTS * SLOT;

const HEAD: usize = 4;

// The data bytes and indices of a mode send.
pub const MODE_SEND: usize = 31;

pub const INDICES: usize = 20;

// The greatest priority and lock of a mode send.
pub const MAX_PRIORITY: u8 = 7;

pub const MAX_LOCK: u8 = 1;

// The status of a mode send.
#[derive(Clone, Copy, PartialEq, Eq, Debug)]
pub enum ModeSendStatus {
    Accepted,
    Rejected,
    SessionInUse,
    NoFreeSlot,
    IllegalParameter,
}

// Its number.
impl From<ModeSendStatus> for u8 {
    ghost from_gives = { λ s n. n ≡ status_number s };

    fn from(status: ModeSendStatus) -> u8
        ensures { result ≡ status_number status }
    {
        match status {
            ModeSendStatus::Accepted => 0,
            ModeSendStatus::Rejected => 1,
            ModeSendStatus::SessionInUse => 3,
            ModeSendStatus::NoFreeSlot => 4,
            ModeSendStatus::IllegalParameter => 5,
        }
    }
}

// What a slot says: a session's line, its number and a bit for each of its nodes, least significant first.
// The slot is in use exactly if `used` is 1; what another holds counts for nothing.
// Stays: `used` is a byte, since a table that is lent may have any byte there, and `slot_at` promises to give it (specs/Sessions.antt: slot_from).
#[derive(Clone, Copy)]
pub struct Slot {
    pub used: u8,
    pub line: u8,
    pub number: u16,
    pub nodes: [u8; MARKS],
}

// What a mode send asks for: the first `count` of its indices name its nodes.
// Stays: the count stands beside the indices, since it is judged as it was sent, 0 or above 20 too (specs/Sessions.antt: is_legal, status 5).
#[derive(Clone, Copy)]
pub struct ModeSend {
    pub session: u16,
    pub originator: u8,
    pub priority: u8,
    pub count: u8,
    pub indices: [u8; INDICES],
    pub lock: u8,
}
