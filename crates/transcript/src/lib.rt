// A script replayed: each line's call is made on hub, table and the lines' records, and its answer is written (docs/REPLAY.md).
// What a line answers and leaves is the definition's: specs/World.antt, and what `play` promises specs/Plays.antt.
// It stands on the calls of `script`, on what `hub` promises, and on the lines of `report`.
#![tactic(auto)]

mod answers;
mod listing;
mod records;
mod state;
mod world;

pub use answers::{FILLER, feed_line};
use line::Reading;
use rules::{Hub, LINES};
pub use world::{first, next_number, play};

// What lasts from line to line beside the table, and the place in the output.
#[derive(Clone, Copy)]
pub struct Run {
    pub hub: Hub,
    pub readings: [Reading; LINES],
    pub at: usize,
}
