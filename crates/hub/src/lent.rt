// Feed and close on a lent record: the serial service lends a line's reading, and the call changes it where it lies (document 01, "From wire
// to packet"). Each makes the call by value, stores the record back and gives the rest. Lists of such calls: crate demands.
ghost use Rattle.std.specs.Prelude.{◌≡◌};
ghost use Rattle.rules.specs.Promises.{Closes, Feeds};

use line::Reading;
use rules::{Answered, Hub, Told};

// Bytes on a line: reads up to the first outcome or the end of the bytes, and serves the outcome.
pub fn feed(
    hub: Hub,
    table: &mut [u8],
    reading: &mut Reading,
    line: u8,
    bytes: &[u8],
    room: &mut [u8],
) -> Answered<Told>
    ensures { Feeds hub table.old reading.old line bytes.now room.old result.answer result.hub table.new reading.new room.new }
{
    requests::call(hub, table, *reading, line, bytes, room).store_back(reading)
}

// A line is closed: its login is lost, its reading state emptied, its sessions closed.
pub fn close(hub: Hub, reading: &mut Reading, line: u8) -> Answered<()>
    ensures { Closes hub reading.old line result.answer result.hub reading.new }
{
    crate::closing::close_record(hub, *reading, line).store_back(reading)
}
