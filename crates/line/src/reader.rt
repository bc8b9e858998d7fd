// Reading by value: wire bytes in, one outcome at a time out.
// The answer is the definition's in bytes used, outcome and state: specs/Reader.antt, specs/Answers.antt.
ghost use Rattle.std.specs.Prelude.{◌≤◌, ◌≡◌, ◌==◌, length, position};
ghost use Rattle.line.specs.declared.Mode.TheVariants.{Plain};
ghost use Rattle.line.specs.Reader.{limit, read};
ghost use Rattle.line.specs.Answers.{emptied_reading, taken, taken_as, answer_of, Answers};
ghost use Rattle.line.specs.Step.{told_at, Runs, Skips};

use crate::counting::{fault_behind, is_special};
use crate::step::{Action, decide, taken_at};
use crate::{Answer, AnswerAt, Cursor, END, LIMIT, Mode, PacketOutcome, Reading};

// A reading between packets.
pub fn emptied() -> Reading
    ensures { result ≡ emptied_reading }
{
    Reading {
        bytes: [0u8; LIMIT],
        count: 0,
        mode: Mode::Plain,
    }
}

// Reads to the end of the first outcome or of the bytes.
pub fn read(reading: Reading, wire: &[u8]) -> Answer<PacketOutcome>
    ensures { Answers (read (taken reading) wire.now) result }
{
    let mut bytes = reading.bytes;
    let told = read_in(&mut bytes, crate::step::cursor_of(reading), wire);
    told.with_bytes(bytes)
}

// The same on a reading whose bytes stay where they lie: nothing is copied.
pub fn read_in(bytes: &mut [u8; LIMIT], cursor: Cursor, wire: &[u8]) -> AnswerAt<PacketOutcome>
    ensures { Answers (read (taken_as bytes.old cursor.count cursor.mode) wire.now) (answer_of bytes.new result) }
{
    let Cursor {
        mut count,
        mut mode,
    } = taken_at(cursor);
    let mut i = 0;
    // Stays: `i` is counted, since it moves by runs and is told as the bytes used; byte by byte a skipped one cost 19 instructions, not 5.
    loop {
        let run = plain_run(mode, bytes, count, wire, i);
        count += run;
        i += run;
        let Some(b) = wire.get(i).copied() else {
            return told_at(i, PacketOutcome::Nothing, count, mode);
        };
        i += 1;
        match decide(mode, count, b) {
            Action::Store(v) => {
                bytes[count] = v;
                count += 1;
                mode = Mode::Plain;
            }
            Action::Keep(m) => {
                mode = m;
            }
            Action::Settle(fault) => {
                mode = Mode::Skipping(fault_behind(fault, bytes, count));
                count = 0;
                i += skip_run(wire, i);
            }
            Action::Skip(f) => {
                count = 0;
                mode = Mode::Skipping(f);
                i += skip_run(wire, i);
            }
            Action::Refuse(fault) => {
                let at = fault_behind(fault, bytes, count);
                return told_at(i, PacketOutcome::Refused(at), 0, Mode::Plain);
            }
            Action::Give(outcome) => {
                return told_at(i, outcome, 0, Mode::Plain);
            }
        }
    }
}

impl<O> AnswerAt<O> {
    // The answer with its bytes.
    pub fn with_bytes(self, bytes: [u8; LIMIT]) -> Answer<O>
        ensures { result ≡ answer_of bytes self }
    {
        let Cursor { count, mode } = self.cursor;
        Answer {
            used: self.used,
            outcome: self.outcome,
            reading: Reading { bytes, count, mode },
        }
    }
}

// An answer from its parts.
fn told_at(used: usize, outcome: PacketOutcome, count: usize, mode: Mode) -> AnswerAt<PacketOutcome>
    ensures { result ≡ told_at used outcome count mode }
{
    AnswerAt {
        used,
        outcome,
        cursor: Cursor { count, mode },
    }
}

// Stores the bytes from `at` on that go as they are, in a mode that takes such, and answers how many.
fn plain_run(mode: Mode, bytes: &mut [u8; LIMIT], count: usize, wire: &[u8], at: usize) -> usize
    requires { (count ≤ limit) × (at ≤ length wire.now) }
    ensures { Runs mode bytes.old count wire.now at bytes.new result }
{
    match mode {
        Mode::Plain => copy_run(bytes, count, wire, at),
        Mode::Escaped | Mode::Skipping(_) => 0,
    }
}

// Stays: byte by byte. Most runs are short, and one whose end is looked for first and that is then copied at once is gone over twice:
// tried, and listing frames took up to half as long again.
fn copy_run(bytes: &mut [u8; LIMIT], count: usize, wire: &[u8], at: usize) -> usize
    requires { (count ≤ limit) × (at ≤ length wire.now) }
    ensures { Runs Plain bytes.old count wire.now at bytes.new result }
{
    let most = (LIMIT - count).min(wire.len() - at);
    for (run, b) in wire[at..at + most].iter().enumerate() {
        if is_special(*b) {
            return run;
        }
        bytes[count + run] = *b;
    }
    most
}

// How many bytes from `at` on are skipped in a settled piece: those before its END.
fn skip_run(wire: &[u8], at: usize) -> usize
    requires { at ≤ length wire.now }
    ensures { Skips wire.now at result }
{
    let rest = &wire[at..];
    first_end(rest).unwrap_or(rest.len())
}

// The first END.
fn first_end(bytes: &[u8]) -> Option<usize>
    ensures { result ≡ position (λ b. b == END) bytes.now }
{
    bytes.iter().position(|b| *b == END)
}
