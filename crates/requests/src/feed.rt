// Feed, with the record in and out by value, or its bytes where they lie (document 01, "Feed takes a line, bytes and reply room"): the call's
// first refusals; reading up to the first outcome, on a copy of the record; what is answered, decided; refusal 9 or the reply written; and
// only then hub, table and record changed. It stands on the reader of frames, on the replies and on the requests.
ghost use Rattle.std.specs.Prelude.{◌≡◌, length};
ghost use Rattle.frame.specs.Line.{limit};
ghost use Rattle.frame.specs.Answers.{told, Within};
ghost use Rattle.rules.specs.Hub.{respond_if};
ghost use Rattle.rules.specs.Promises.{Feeds};
ghost use Rattle.requests.specs.Answers.{reading_at, data_length, data_in, Decides, answered};

use crate::decide::{RequestError, decide};
use crate::effects::carry_out;
use frame::FrameOutcome;
use line::{Cursor, Reading};
use replies::Reply;
use rules::{AnsweredByValue, CallRefusal, FedAt, Hub, SerialLine, Told};

// Bytes on a line: reads up to the first outcome or the end of the bytes, and serves the outcome.
pub fn call(
    hub: Hub,
    table: &mut [u8],
    reading: Reading,
    line: u8,
    bytes: &[u8],
    room: &mut [u8],
) -> AnsweredByValue<Told>
    ensures { Feeds hub table.old reading line bytes.now room.old result.answer result.hub table.new result.reading room.new }
{
    let Reading {
        bytes: mut held,
        count,
        mode,
    } = reading;
    let fed = call_in(
        hub,
        table,
        &mut held,
        Cursor { count, mode },
        line,
        bytes,
        room,
    );
    AnsweredByValue {
        answer: fed.answer,
        hub: fed.hub,
        reading: Reading {
            bytes: held,
            count: fed.cursor.count,
            mode: fed.cursor.mode,
        },
    }
}

// The same with the record's bytes lent: they are read on a copy, which is put in their place once the reply is written.
pub fn call_in(
    mut hub: Hub,
    table: &mut [u8],
    held: &mut [u8; line::LIMIT],
    mut cursor: Cursor,
    line: u8,
    bytes: &[u8],
    room: &mut [u8],
) -> FedAt
    ensures { Feeds hub table.old (reading_at held.old cursor) line bytes.now room.old result.answer result.hub table.new (reading_at held.new result.cursor) room.new }
{
    let answer = serve(&mut hub, table, held, &mut cursor, line, bytes, room);
    FedAt {
        answer,
        hub,
        cursor,
    }
}

// The same with hub and cursor lent too: they are changed once the reply is written.
fn serve(
    hub: &mut Hub,
    table: &mut [u8],
    held: &mut [u8; line::LIMIT],
    cursor: &mut Cursor,
    line: u8,
    bytes: &[u8],
    room: &mut [u8],
) -> Result<Told, CallRefusal>
    ensures { Feeds hub.old table.old (reading_at held.old cursor.old) line bytes.now room.old result hub.new table.new (reading_at held.new cursor.new) room.new }
{
    if table.len() != nodes::TABLE {
        return Err(CallRefusal::WrongTable);
    }
    let line = SerialLine::try_from(line)?;
    let mut tried = *held;
    let read = frame::read_in(&mut tried, *cursor, bytes);
    let reply = decide_outcome(hub, table, line.number, read.outcome, &tried);
    let Ok(len) = replies::write(room, reply, table) else {
        return Err(CallRefusal::ShortRoom);
    };
    let end = frame::HEAD + data_len(read.outcome);
    carry_out(hub, table, line, reply, &tried[frame::HEAD..end]);
    *held = tried;
    *cursor = read.cursor;
    Ok(Told {
        used: read.used,
        outcome: read.outcome,
        len,
    })
}

// What is answered to what was read: a request that fails is told by the error frame.
fn decide_outcome(hub: &Hub, table: &[u8], line: u8, outcome: FrameOutcome, held: &[u8]) -> Reply
    requires { (length held.now ≡ limit) × Within outcome }
    ensures { Decides (respond_if hub.now table.now line (told outcome held.now)) hub.now table.now line (data_in outcome held.now) result }
{
    match reply_to(hub, table, line, outcome, held) {
        Ok(reply) => reply,
        Err(error) => Reply::Error(error as u8),
    }
}

// The reply to it, if it came to an outcome.
fn reply_to(
    hub: &Hub,
    table: &[u8],
    line: u8,
    outcome: FrameOutcome,
    held: &[u8],
) -> Result<Reply, RequestError>
    requires { (length held.now ≡ limit) × Within outcome }
    ensures { Decides (respond_if hub.now table.now line (told outcome held.now)) hub.now table.now line (data_in outcome held.now) (answered result) }
{
    match outcome {
        FrameOutcome::Nothing => Ok(Reply::Nothing),
        FrameOutcome::Frame { command, len } => decide(
            hub,
            table,
            line,
            command,
            &held[frame::HEAD..frame::HEAD + len],
        ),
        FrameOutcome::Refused(_) => Err(RequestError::Frame),
    }
}

// How many data bytes a frame has that was read.
fn data_len(outcome: FrameOutcome) -> usize
    ensures { result ≡ data_length outcome }
{
    match outcome {
        FrameOutcome::Frame { len, .. } => len,
        FrameOutcome::Nothing | FrameOutcome::Refused(_) => 0,
    }
}
