// One step of the reader: where a lent record is taken up, and what one wire byte asks for.
// Each answer does the definition's step, whatever bytes are held: specs/Reader.antt, specs/Step.antt.
ghost use Rattle.std.specs.Prelude.{◌≡◌};
ghost use Rattle.line.specs.Step.{cursor_of, Takes, SkipsAt, Acts, stepping, closing, storing};

use crate::counting::is_possible;
use crate::{
    Cursor, END, ESC, ESC_END, ESC_ESC, Fault, FaultAt, LIMIT, Mode, PacketOutcome, Reading,
};

// What one byte asks the reader to do: store a decoded byte, go on in a mode, settle the piece for a fault met here, skip in a settled one,
// refuse the piece for a fault met by its END, or give an outcome.
#[derive(Clone, Copy)]
pub(crate) enum Action {
    Store(u8),
    Keep(Mode),
    Settle(Fault),
    Skip(FaultAt),
    Refuse(Fault),
    Give(PacketOutcome),
}

// Where a reading stands between packets.
const BETWEEN_PACKETS: Cursor = Cursor {
    count: 0,
    mode: Mode::Plain,
};

// The cursor that a lent record is taken at: what is given back from there claims no more than it holds, and no place that no bytes leave.
pub fn taken_cursor(reading: Reading) -> Cursor
    ensures { Takes (cursor_of reading) result }
{
    taken_at(cursor_of(reading))
}

// A reading apart from its bytes.
pub(crate) fn cursor_of(reading: Reading) -> Cursor
    ensures { result ≡ cursor_of reading }
{
    Cursor {
        count: reading.count,
        mode: reading.mode,
    }
}

// The same of a cursor: none claims more bytes than there are, or any while it skips, or skips at places that no bytes leave.
pub(crate) fn taken_at(cursor: Cursor) -> Cursor
    ensures { Takes cursor result }
{
    if LIMIT < cursor.count {
        return BETWEEN_PACKETS;
    }
    match cursor.mode {
        Mode::Plain | Mode::Escaped => cursor,
        Mode::Skipping(fault) => skipping_at(fault),
    }
}

// A record that skips holds no bytes; one with places that no bytes could leave is between packets.
fn skipping_at(fault: FaultAt) -> Cursor
    ensures { SkipsAt fault result }
{
    if is_possible(fault) {
        Cursor {
            count: 0,
            mode: Mode::Skipping(fault),
        }
    } else {
        BETWEEN_PACKETS
    }
}

// What one byte asks for, where so many bytes are held.
#[tactic(auto, unfolding(crate::specs::Reader::step, crate::specs::Reader::inner, crate::specs::Reader::close, crate::specs::Reader::wrong_escape))]
pub(crate) fn decide(mode: Mode, count: usize, b: u8) -> Action
    ensures { Acts count (stepping mode b) result }
{
    match (mode, b) {
        (Mode::Plain, END) => close(count),
        (Mode::Plain, ESC) => Action::Keep(Mode::Escaped),
        (Mode::Plain, _) => store(count, b),
        (Mode::Escaped, END) => Action::Refuse(Fault::WrongEscape),
        (Mode::Escaped, ESC_END) => store(count, END),
        (Mode::Escaped, ESC_ESC) => store(count, ESC),
        (Mode::Escaped, _) => Action::Settle(Fault::WrongEscape),
        (Mode::Skipping(fault), END) => Action::Give(PacketOutcome::Refused(fault)),
        (Mode::Skipping(fault), _) => Action::Skip(fault),
    }
}

// An END among whole bytes: an empty piece gives no outcome.
fn close(count: usize) -> Action
    ensures { Acts count closing result }
{
    if count == 0 {
        Action::Keep(Mode::Plain)
    } else {
        Action::Give(PacketOutcome::Packet(count))
    }
}

// A decoded byte is stored while there is room for it.
#[tactic(auto, unfolding(crate::specs::Reader::decoded, crate::specs::Reader::too_long))]
fn store(count: usize, b: u8) -> Action
    ensures { Acts count (storing b) result }
{
    if count < LIMIT {
        Action::Store(b)
    } else {
        Action::Settle(Fault::TooLong)
    }
}
