// Each call of the hub, made on what is kept.
ghost use Rattle.demands.specs.Steps.{Made, start, enrol, close, finish, feed, started, enrolled, closed, finished, fed};
ghost use Rattle.rules.specs.Answers.{started_of, enrolled_of, closed_of, finished_of, fed_of};
ghost use Rattle.frame.specs.Reader.{emptied_reading};
ghost use Rattle.service.specs.Memory.{memory_of, lent_by};

use crate::{CallMade, Kept, LineCallMade};
use rules::{CallRefusal, Notice, Told};

// Start.
pub fn start(kept: Kept, table: &mut [u8], password: &[u8]) -> CallMade<()>
    ensures { Made (memory_of kept table.old) (start password.now) (started (started_of result.answer result.kept.hub table.new)) (memory_of result.kept table.new) }
{
    let made = hub::start(kept.hub, table, password);
    CallMade {
        answer: made.answer,
        kept: Kept {
            hub: made.hub,
            ..kept
        },
    }
}

// Enrol a node.
pub fn enrol(kept: Kept, table: &mut [u8], node: u8, kind: u16) -> Result<(), CallRefusal>
    ensures { Made (memory_of kept table.old) (enrol node kind) (enrolled (enrolled_of result table.new)) (memory_of kept table.new) }
{
    hub::enrol(table, node, kind)
}

// Close a line.
pub fn close(kept: Kept, table: &[u8], line: u8) -> LineCallMade<()>
    ensures { Made (memory_of kept table.now) (close line emptied_reading) (closed (closed_of result.answer result.kept.hub result.reading)) (memory_of result.kept table.now) }
{
    let lent = crate::records::record_of(kept.records, line);
    let made = hub::close_by_value(kept.hub, lent, line);
    LineCallMade {
        answer: made.answer,
        reading: made.reading,
        kept: Kept {
            hub: made.hub,
            records: crate::records::with_record(kept.records, line, made.reading),
        },
    }
}

// Finish a session.
pub fn finish(kept: Kept, table: &[u8], session: u16, room: &mut [u8]) -> CallMade<Notice>
    ensures { Made (memory_of kept table.now) (finish session room.old) (finished (finished_of result.answer result.kept.hub room.new)) (memory_of result.kept table.now) }
{
    let made = hub::finish(kept.hub, session, room);
    CallMade {
        answer: made.answer,
        kept: Kept {
            hub: made.hub,
            ..kept
        },
    }
}

// Feed a line.
pub fn feed(
    kept: Kept,
    table: &mut [u8],
    line: u8,
    bytes: &[u8],
    room: &mut [u8],
) -> LineCallMade<Told>
    ensures { Made (memory_of kept table.old) (feed (lent_by line bytes.now room.old)) (fed (fed_of result.answer result.kept.hub table.new result.reading room.new)) (memory_of result.kept table.new) }
{
    let lent = crate::records::record_of(kept.records, line);
    let made = hub::feed_by_value(kept.hub, table, lent, line, bytes, room);
    LineCallMade {
        answer: made.answer,
        reading: made.reading,
        kept: Kept {
            hub: made.hub,
            records: crate::records::with_record(kept.records, line, made.reading),
        },
    }
}
