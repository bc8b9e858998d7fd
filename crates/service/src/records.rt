// The lines' records: the one that a call is lent, and where it goes back to.
ghost use Rattle.std.specs.Prelude.{◌≡◌, get_or, set};
ghost use Rattle.frame.specs.Reader.{emptied_reading};

use line::Reading;
use rules::LINES;

// The record of a line; a line above 3 has none of its own and is lent an emptied one.
pub fn record_of(records: [Reading; LINES], line: u8) -> Reading
    ensures { result ≡ get_or records line emptied_reading }
{
    match records.get(usize::from(line)) {
        Some(record) => *record,
        None => frame::emptied(),
    }
}

// The records with the one that was lent.
// Stays: a test and an index; of `get_mut` the goal stayed open that the record is written back into the array.
pub fn with_record(mut records: [Reading; LINES], line: u8, reading: Reading) -> [Reading; LINES]
    ensures { result ≡ set records line reading }
{
    let place = usize::from(line);
    if place < LINES {
        records[place] = reading;
    }
    records
}
