// The listing of a capture: a line for each outcome of its bytes, and the wire bytes since the last END, written part by part.
// The definition is specs/Listing.antt, what a call promises specs/Lists.antt; specs/Whole.antt: however a capture is cut into calls, they
// write the listing of the whole. It stands on what `frame` and `text` promise.
#![tactic(auto)]

mod capture;
mod left;
mod lines;
mod outcome;

pub use capture::list;
pub use left::last_line;
use line::Reading;
pub use lines::LINE;
pub use outcome::outcome_line;

// What a call on some bytes used and wrote, and how the reading stands after them.
#[derive(Clone, Copy)]
pub struct Listed {
    pub used: usize,
    pub written: usize,
    pub reading: Reading,
    pub left: u64,
}
