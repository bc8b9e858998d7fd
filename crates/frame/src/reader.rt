// Reading frames by value: wire bytes in, one frame or refusal at a time out. The line reader's packets are judged.
// The answer is the definition's in bytes used, outcome and state: specs/Reader.antt, specs/Answers.antt.
ghost use Rattle.std.specs.Prelude.{◌≡◌, length};
ghost use Rattle.line.specs.Reader.{limit};
ghost use Rattle.line.specs.Answers.{Within};
ghost use Rattle.frame.specs.Reader.{read, taken, taken_as, emptied_reading};
ghost use Rattle.frame.specs.Answers.{answer_of, Answers};
ghost use Rattle.frame.specs.Judgements.{Judging, outcome_of, cause_of, refusal_of};

use crate::{AcceptedFrame, Cause, FrameOutcome, PacketRefusal};
use line::{Answer, AnswerAt, Cursor, Fault, FaultAt, PacketOutcome, Reading};

// A reading between packets.
pub fn emptied() -> Reading
    ensures { result ≡ emptied_reading }
{
    line::emptied()
}

// Reads to the end of the first outcome or of the bytes.
pub fn read(reading: Reading, wire: &[u8]) -> Answer<FrameOutcome>
    ensures { Answers (read (taken reading) wire.now) result }
{
    let Reading {
        mut bytes,
        count,
        mode,
    } = reading;
    let told = read_in(&mut bytes, Cursor { count, mode }, wire);
    told.with_bytes(bytes)
}

// The same on a reading whose bytes stay where they lie: nothing is copied.
pub fn read_in(bytes: &mut [u8; line::LIMIT], cursor: Cursor, wire: &[u8]) -> AnswerAt<FrameOutcome>
    ensures { Answers (read (taken_as bytes.old cursor.count cursor.mode) wire.now) (answer_of bytes.new result) }
{
    let told = line::read_in(bytes, cursor, wire);
    AnswerAt {
        used: told.used,
        outcome: judge_in(bytes, told.outcome),
        cursor: told.cursor,
    }
}

// A packet that lies at the front of a reading's bytes is judged there.
fn judge_in(bytes: &[u8], got: PacketOutcome) -> FrameOutcome
    requires { (length bytes.now ≡ limit) × Within got }
    ensures { Judging bytes.now got result }
{
    match got {
        PacketOutcome::Nothing => FrameOutcome::Nothing,
        PacketOutcome::Packet(n) => crate::checks::judge(&bytes[..n]).into(),
        PacketOutcome::Refused(fault) => FrameOutcome::Refused(fault.into()),
    }
}

// A packet's judgement, as an outcome.
impl From<Result<AcceptedFrame, PacketRefusal>> for FrameOutcome {
    ghost from_gives = { λ judged outcome. outcome ≡ outcome_of judged };

    fn from(judged: Result<AcceptedFrame, PacketRefusal>) -> FrameOutcome {
        match judged {
            Ok(frame) => FrameOutcome::Frame {
                command: frame.command,
                len: frame.len,
            },
            Err(refusal) => FrameOutcome::Refused(refusal),
        }
    }
}

// A fault of the line reader, as a packet refusal.
impl From<FaultAt> for PacketRefusal {
    ghost from_gives = { λ fault refusal. refusal ≡ refusal_of fault };

    fn from(fault: FaultAt) -> PacketRefusal {
        PacketRefusal {
            cause: Cause::from(fault.fault),
            at: fault.at,
        }
    }
}

impl From<Fault> for Cause {
    ghost from_gives = { λ fault cause. cause ≡ cause_of fault };

    fn from(fault: Fault) -> Cause {
        match fault {
            Fault::WrongEscape => Cause::WrongEscape,
            Fault::TooLong => Cause::TooLong,
        }
    }
}
