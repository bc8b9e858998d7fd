// Lists a capture: reads standard input to its end, writes a line for each outcome, then the wire bytes since the last END.
// It stops where the input cannot be read or the output is not taken. The text is made by proved functions of `lister`.
#![tactic(auto)]

ghost use Rattle.std.specs.Prelude.{◌^◌, ◌<◌, IfOk, IfSome, OnOk};
ghost use Rattle.std.specs.Io.KnownBytes.{Appends};
ghost use Rattle.frame.specs.Reader.{taken};
ghost use Rattle.lister.specs.Lines.{left_line};
ghost use Rattle.lister.specs.Listing.{left_after, listing};
ghost use Rattle.listing.specs.Program.{WritesCalls};

use line::Reading;
use std::io::{self, Read, Write};

// Bytes that a read may give, and room for the lines that a call lists.
const MUCH: usize = 65536;

// Room for the last line.
const PAGE: usize = 4096;

// How the listing stands: the record, and the wire bytes since the last END.
#[derive(Clone, Copy)]
struct State {
    reading: Reading,
    left: u64,
}

// Writes the lines of some bytes.
fn list_part<W: Write>(output: &mut W, start: State, wire: &[u8]) -> io::Result<State>
    ensures { IfOk result (λ s. WritesCalls (taken start.reading) start.left wire.now (taken s.reading) s.left
        (W.contents output.old) (W.contents output.new)) }
{
    let mut out = [0u8; MUCH];
    let mut state = start;
    let mut rest = wire;
    while !rest.is_empty() {
        let listed = lister::list(state.reading, state.left, rest, &mut out);
        output.write_all(&out[..listed.written])?;
        state = State {
            reading: listed.reading,
            left: listed.left,
        };
        rest = &rest[listed.used..];
    }
    Ok(state)
}

// Writes the last line.
fn finish<W: Write>(output: &mut W, left: u64) -> io::Result<()>
    ensures { OnOk result (Appends (W.contents output.old) (W.contents output.new) (left_line left)) }
{
    let mut out = [0u8; PAGE];
    let n = lister::last_line(&mut out, left);
    output.write_all(&out[..n])
}

// Lists the whole input: what is appended to the output is the definition's, where fewer than 2^64 bytes are left behind the last END.
fn list_all<R: Read, W: Write>(input: &mut R, output: &mut W) -> io::Result<()>
    ensures { OnOk result (IfSome (R.remaining input.old) (λ w. left_after 0 w < 2 ^ 64 →
        Appends (W.contents output.old) (W.contents output.new) (listing w))) }
{
    let mut buffer = [0u8; MUCH];
    let mut state = State {
        reading: frame::emptied(),
        left: 0,
    };
    // Enough for any input: each turn but the last reads at least one byte.
    for _ in 0..u64::MAX {
        let n = input.read(&mut buffer)?;
        if n == 0 {
            return finish(output, state.left);
        }
        state = list_part(output, state, &buffer[..n])?;
    }
    Err(io::Error::from(io::ErrorKind::TimedOut))
}

// An error ends the listing, and is told to nobody.
fn main(rt: HostRuntime) {
    let _ = list_all(&mut rt.stdin(), &mut rt.stdout());
}
