// What the replayed calls answer: lines of text, appended to a page.
// A line is written whole or not at all, and is the definition's to the byte: specs/Replies.antt.
ghost use Rattle.std.specs.Prelude.{◌≡◌, take};
ghost use Rattle.text.specs.Page.{Writes};
ghost use Rattle.report.specs.Report.{has_spilled};
ghost use Rattle.transcript.specs.Replies.{filler, call_line, refusal_line, finish_line, outcome_line, feed_line};

use frame::FrameOutcome;
use report::Sent;
use rules::{CallRefusal, Notice, Told};
use text::Page;

// The lent room is filled with it before each call.
pub const FILLER: u8 = 0xA5;

// A call without room: "done", or "refused N".
pub(crate) fn call_line(page: &mut Page, answer: Result<(), CallRefusal>)
    ensures { Writes (call_line answer) page.old page.new }
{
    match answer {
        Ok(()) => page.append(report::DONE_LINE),
        Err(refusal) => report::refused_line(page, rules::number(refusal), false),
    }
}

// Finishing a session: its line and the reply, which stands at the room's front.
pub(crate) fn finish_line(page: &mut Page, answer: Result<Notice, CallRefusal>, room: &[u8])
    ensures { Writes (finish_line answer room.now) page.old page.new }
{
    match answer {
        Err(refusal) => refused_line(page, refusal, room),
        Ok(Notice { line, len }) => report::finished_line(page, line, sent(room, len)),
    }
}

// A feed: the bytes used, the outcome and the reply.
pub fn feed_line(page: &mut Page, answer: Result<Told, CallRefusal>, room: &[u8])
    ensures { Writes (feed_line answer room.now) page.old page.new }
{
    match answer {
        Err(refusal) => refused_line(page, refusal, room),
        Ok(Told { used, outcome, len }) => outcome_line(page, used, outcome, sent(room, len)),
    }
}

fn outcome_line(page: &mut Page, used: usize, outcome: FrameOutcome, reply: Sent)
    ensures { Writes (outcome_line used outcome reply.entry.bytes.now reply.entry.spilled) page.old page.new }
{
    match outcome {
        FrameOutcome::Nothing => report::none_line(page, used, reply),
        FrameOutcome::Frame { command, len } => report::frame_line(page, used, command, len, reply),
        FrameOutcome::Refused(refusal) => {
            let number = frame::number(refusal.cause);
            report::packet_line(page, used, number, refusal.at, reply)
        }
    }
}

fn refused_line(page: &mut Page, refusal: CallRefusal, room: &[u8])
    ensures { Writes (refusal_line refusal room.now) page.old page.new }
{
    let spilled = report::spilled(room, 0, FILLER);
    report::refused_line(page, rules::number(refusal), spilled)
}

// What a call left in its room: a reply of a length at the front, and whether a byte behind it changed.
fn sent(room: &[u8], len: usize) -> Sent
    ensures bytes { result.bytes.now ≡ take len room.now }
    ensures spilled { result.spilled ≡ has_spilled room.now len filler }
{
    Sent {
        bytes: &room[..len.min(room.len())],
        spilled: report::spilled(room, len, FILLER),
    }
}
