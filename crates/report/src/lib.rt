// The lines that a replay writes: what its calls answer, and what `show` and `table` tell, each appended to a page of text.
// A line is written whole or not at all, and is the definition's to the byte (specs/Report.antt, specs/State.antt, specs/Entry.antt).
// It stands on the pieces of a line (`text`), and on `line` and `sessions` for a reading's modes, a byte's places and how many nodes a session may
// hold.
#![tactic(auto)]

mod bad;
mod calls;
mod entries;
mod names;
mod outcomes;
mod replies;
mod slots;
mod state;

pub use bad::{bad_line, long_line};
pub use calls::{refused_line, spilled};
pub use entries::{Entry, entry_line};
pub use outcomes::{frame_line, packet_line};
pub use replies::{Sent, finished_line, none_line};
pub use slots::slot_line;
pub use state::{login_line, node_line, reading_line};

// Lines that are always the same: for a call that was made, and the last of the state and of the table.
pub const DONE_LINE: &[u8] = b"done\n";

pub const END_LINE: &[u8] = b"end\n";

// Words of several lines.
const USED: &[u8] = b"used ";

const REPLY: &[u8] = b" reply ";

const SPILLED: &[u8] = b" spilled\n";

// No two places and the word behind them are longer.
const PLACED: usize = 52;
