// Replays a script of calls on one hub, one table and four reading records, and answers each (the format: docs/REPLAY.md).
// It stops where the input cannot be read or the output is not taken. The input is cut at LF here, the lines are counted, and each is played
// by `transcript`; what they answered is written before more is read. What a whole input comes to is defined in transcript/specs/World.antt:
// transcript; that a line is played and counted as there, and that what it answered is what is written, is promised here, but that the cutting
// comes to it is tested only.
#![tactic(auto)]

ghost use Rattle.std.specs.Prelude.{◌+◌, ◌≤◌, ◌≡◌, length, take, OnOk};
ghost use Rattle.std.specs.Io.KnownBytes.{Appends};
ghost use Rattle.script.specs.Script.{longest};
ghost use Rattle.transcript.specs.World.{play_line, next_number};
ghost use Rattle.transcript.specs.Plays.{Plays, world_of};

use script::{DATA_MOST, LONGEST, ROOM_MOST, TABLE_MOST};
use std::io::{self, Read, Write};
use transcript::Run;

// Bytes of an open line that are held: one more than the longest line has, so that a longer one is seen to be.
const HELD: usize = LONGEST + 1;

// Room for them and for what a read gives.
const TEXT: usize = HELD + 65536;

// The output buffer is written when it has more than this: what is left holds any answer, `table` with 200 names that are all escaped too.
const FULL: usize = 32768;

const OUT: usize = FULL + 65536;

// The run, the number of the next line, and the memory that lines are played in. The first `run.at` bytes of `out` are still to be written.
#[derive(Drop)]
struct Player {
    run: Run,
    number: u64,
    table: [u8; TABLE_MOST],
    decoded: [u8; DATA_MOST],
    room: [u8; ROOM_MOST],
    out: [u8; OUT],
}

impl Player {
    fn new() -> Player {
        Player {
            run: transcript::first(),
            number: 1,
            table: [0; TABLE_MOST],
            decoded: [0; DATA_MOST],
            room: [0; ROOM_MOST],
            out: [0; OUT],
        }
    }

    // One line, without its LF.
    fn play(&mut self, line: &[u8])
        ensures played { Plays (play_line (world_of self.old.run self.old.table) self.old.number line.now)
            self.old.out self.old.run.at self.new.run self.new.table self.new.out }
        ensures counted { self.new.number ≡ next_number self.old.number }
    {
        self.run = transcript::play(
            self.run,
            self.number,
            line,
            &mut self.table,
            &mut self.decoded,
            &mut self.room,
            &mut self.out,
        );
        self.number = transcript::next_number(self.number);
    }

    // Some lines, with an LF between two. What they answer is written.
    fn play_all<W: Write>(&mut self, lines: &[u8], output: &mut W) -> io::Result<()> {
        for line in lines.split(|b| *b == b'\n') {
            self.play(line);
            if FULL < self.run.at {
                self.flush(output)?;
            }
        }
        self.flush(output)
    }

    // What there is of the output is written.
    fn flush<W: Write>(&mut self, output: &mut W) -> io::Result<()>
        ensures written { OnOk result (Appends (W.contents output.old) (W.contents output.new) (take self.old.run.at self.old.out)) }
        ensures emptied { self.new ≡ record self.old { run = record self.old.run { at = 0 } } }
    {
        let n = self.run.at.min(OUT);
        self.run.at = 0;
        output.write_all(&self.out[..n])
    }
}

// The open line moves to the text's front; of one that is too long, as many bytes as show it.
fn keep(text: &mut [u8], from: usize, held: usize) -> usize
    requires { from + held ≤ length text.old }
    ensures { result ≤ longest + 1 }
{
    let n = held.min(HELD);
    text.copy_within(from..from + n, 0);
    n
}

// Plays the whole input. At its end an open line is played as if it had its LF.
fn replay<R: Read, W: Write>(input: &mut R, output: &mut W) -> io::Result<()> {
    let mut player = Player::new();
    let mut text = [0u8; TEXT];
    let mut held = 0;
    // Each turn reads at least a byte: no input has more.
    for _ in 0..u64::MAX {
        let n = input.read(&mut text[held..])?;
        if n == 0 {
            if 0 < held {
                player.play_all(&text[..held], output)?;
            }
            return Ok(());
        }
        let end = held + n;
        let mut from = 0;
        // The bytes held have no LF.
        if let Some(last) = text[held..end].iter().rposition(|b| *b == b'\n') {
            player.play_all(&text[..held + last], output)?;
            from = held + last + 1;
        }
        held = keep(&mut text, from, end - from);
    }
    Ok(())
}

// An error ends the replay, and is told to nobody.
fn main(rt: HostRuntime) {
    let _ = replay(&mut rt.stdin(), &mut rt.stdout());
}
