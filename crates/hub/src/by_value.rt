// Feed and close for a caller that keeps its records by value: the record is lent to the call, and given back beside the answer.
ghost use Rattle.std.specs.Prelude.{◌≡◌};
ghost use Rattle.rules.specs.Promises.{Closes, Feeds};
ghost use Rattle.requests.specs.Answers.{reading_at};

use line::{Cursor, Reading};
use rules::{AnsweredByValue, FedAt, Hub, Told};

// Bytes on a line: reads up to the first outcome or the end of the bytes, and serves the outcome.
pub fn feed_by_value(
    hub: Hub,
    table: &mut [u8],
    mut reading: Reading,
    line: u8,
    bytes: &[u8],
    room: &mut [u8],
) -> AnsweredByValue<Told>
    ensures { Feeds hub table.old reading line bytes.now room.old result.answer result.hub table.new result.reading room.new }
{
    let fed = crate::lent::feed(hub, table, &mut reading, line, bytes, room);
    AnsweredByValue {
        answer: fed.answer,
        hub: fed.hub,
        reading,
    }
}

// The same with the record's bytes lent, and count and mode by value.
pub fn feed_in(
    hub: Hub,
    table: &mut [u8],
    held: &mut [u8; line::LIMIT],
    cursor: Cursor,
    line: u8,
    bytes: &[u8],
    room: &mut [u8],
) -> FedAt
    ensures { Feeds hub table.old (reading_at held.old cursor) line bytes.now room.old result.answer result.hub table.new (reading_at held.new result.cursor) room.new }
{
    requests::call_in(hub, table, held, cursor, line, bytes, room)
}

// A line is closed: its login is lost, its reading state emptied, its sessions closed.
pub fn close_by_value(hub: Hub, mut reading: Reading, line: u8) -> AnsweredByValue<()>
    ensures { Closes hub reading line result.answer result.hub result.reading }
{
    let closed = crate::lent::close(hub, &mut reading, line);
    AnsweredByValue {
        answer: closed.answer,
        hub: closed.hub,
        reading,
    }
}
