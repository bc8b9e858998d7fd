// Writing: a command with data to its wire form, both ENDs included.
// What each call's answer tells and the room that it leaves are the definition's: specs/Writer.antt.
ghost use Rattle.std.specs.Prelude.{◌≡◌, ◌+◌, ◌<◌, ◌≤◌, [], ◌∷◌, length, leb, MatchResult};
ghost use Rattle.memory.specs.Wrote.{Wrote};
ghost use Rattle.frame.specs.declared.WriteRefusal.TheVariants as refusals;
ghost use Rattle.frame.specs.Frame.{max_data, head_of, escape, wire};
ghost use Rattle.frame.specs.Writer.{told, told_at, told_length, write, write_at, measured, Writes, check};

use crate::{AROUND, DATA, HEAD, LongData, WriteRefusal};

impl From<LongData> for WriteRefusal {
    ghost from_gives = { λ _ refusal. refusal ≡ refusals.LongData };

    fn from(_data: LongData) -> WriteRefusal {
        WriteRefusal::LongData
    }
}

// The wire form at the front of the room; the bytes behind it stay.
pub fn write(room: &mut [u8], command: u16, payload: &[u8]) -> Result<usize, WriteRefusal>
    ensures { Writes (write room.old command payload.now) (told result) room.new }
{
    write_at(room, 0, command, payload)
}

// The wire form from `start` on, in room of any length: it is written whole or not at all.
pub fn write_at(
    room: &mut [u8],
    start: usize,
    command: u16,
    payload: &[u8],
) -> Result<usize, WriteRefusal>
    ensures { Writes (write_at room.old start command payload.now) (told_at result) room.new }
{
    let frame = Outgoing::new(command, payload)?;
    if room.len() < start || !frame.fits(room.len() - start) {
        return Err(WriteRefusal::ShortRoom);
    }
    Ok(frame.put_at(room, start))
}

// How much room a frame takes.
pub fn measure(command: u16, payload: &[u8]) -> Result<usize, LongData>
    ensures { told_length result ≡ measured command payload.now }
{
    Ok(Outgoing::new(command, payload)?.wire_len())
}

// A frame that is to be written: a command, and data of no more bytes than a frame has.
#[derive(Clone, Copy)]
struct Outgoing<'a> {
    command: u16,
    payload: &'a [u8],
    ghost fits_frame: { length payload.now ≤ max_data },
}

impl<'a> Outgoing<'a> {
    // Data longer than `DATA` have no frame.
    fn new(command: u16, payload: &'a [u8]) -> Result<Self, LongData>
        ensures { MatchResult result
            (λ frame. (frame.command ≡ command) × (frame.payload.now ≡ payload.now))
            (λ _. max_data < length payload.now) }
    {
        if DATA < payload.len() {
            return Err(LongData);
        }
        Ok(Outgoing { command, payload })
    }

    // Whether the wire form fits. Space for every byte of the frame doubled and the two ENDs is enough, and nothing is counted then.
    fn fits(self, space: usize) -> bool
        ensures { result ≡ leb (length (wire self.entry.command self.entry.payload.now)) space }
    {
        2 * (self.payload.len() + AROUND) + 2 <= space || self.wire_len() <= space
    }

    // How long the wire form is: each byte that is escaped has an ESC more.
    fn wire_len(self) -> usize
        ensures { result ≡ length (wire self.entry.command self.entry.payload.now) }
    {
        HEAD + self.payload.len()
            + line::escapes(&self.head())
            + line::escapes(self.payload)
            + line::width(self.check())
            + 2
    }

    // The wire form from `start` on, where it fits; the answer is the place behind it.
    fn put_at(self, room: &mut [u8], start: usize) -> usize
        requires { start + length (wire self.command self.payload.now) ≤ length room.old }
        ensures { Wrote room.old start (wire self.entry.command self.entry.payload.now) room.new result }
    {
        let check = self.check();
        room[start] = line::END;
        let a = put_all(room, start + 1, &self.head());
        let b = put_all(room, a, self.payload);
        let e = put(room, b, check);
        room[e] = line::END;
        e + 1
    }

    // Protocol byte, length and command.
    fn head(self) -> [u8; HEAD]
        ensures { result ≡ head_of self.entry.command (length self.entry.payload.now) }
    {
        let [high, low] = self.command.to_be_bytes();
        [0, (self.payload.len() + 3) as u8, high, low]
    }

    // The check byte: the exclusive or of all bytes before it.
    fn check(self) -> u8
        ensures { result ≡ check self.entry.command self.entry.payload.now }
    {
        crate::checks::xor_all(&self.head()) ^ crate::checks::xor_all(self.payload)
    }
}

// Bytes, escaped, from `start` on; the answer is the place behind them.
fn put_all(room: &mut [u8], start: usize, bytes: &[u8]) -> usize
    requires { start + length (escape bytes.now) ≤ length room.old }
    ensures { Wrote room.old start (escape bytes.now) room.new result }
{
    let mut at = start;
    for b in bytes {
        at = put(room, at, *b);
    }
    at
}

// One byte, escaped.
fn put(room: &mut [u8], at: usize, b: u8) -> usize
    requires { at + length (escape (b ∷ [])) ≤ length room.old }
    ensures { Wrote room.old at (escape (b ∷ [])) room.new result }
{
    match b {
        line::END => {
            room[at] = line::ESC;
            room[at + 1] = line::ESC_END;
            at + 2
        }
        line::ESC => {
            room[at] = line::ESC;
            room[at + 1] = line::ESC_ESC;
            at + 2
        }
        _ => {
            room[at] = b;
            at + 1
        }
    }
}
