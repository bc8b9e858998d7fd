// The calls as the demands count them: each is made on what is kept between calls, the hub, the one table and the four lines' records.
// Each promises the demands' relation of one call (crate demands, specs/Steps.antt: Made), so that a change of the hub's promises or of the
// demands is refused here. It stands on the calls of `hub`.
#![tactic(auto)]

mod calls;
mod records;

pub use calls::{close, enrol, feed, finish, start};
use line::Reading;
pub use records::{record_of, with_record};
use rules::{CallRefusal, Hub, LINES};

// What is kept between calls beside the table.
#[derive(Clone, Copy)]
pub struct Kept {
    pub hub: Hub,
    pub records: [Reading; LINES],
}

// What a call gives: its answer, and what is kept then.
#[derive(Clone, Copy)]
pub struct CallMade<T> {
    pub answer: Result<T, CallRefusal>,
    pub kept: Kept,
}

// The same of a call on a line, with the record that it was lent.
#[derive(Clone, Copy)]
pub struct LineCallMade<T> {
    pub answer: Result<T, CallRefusal>,
    pub reading: Reading,
    pub kept: Kept,
}
