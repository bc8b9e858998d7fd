// The state as `show` writes it: lines of text, appended to a page. A slot's line is in `slots`.
// A line is written whole or not at all, and is the definition's to the byte: specs/State.antt.
ghost use Rattle.std.specs.Prelude.{◌≡◌, [], ◌++◌};
ghost use Rattle.text.specs.Text.{ascii};
ghost use Rattle.text.specs.Built.{Built};
ghost use Rattle.text.specs.Page.{Writes};
ghost use Rattle.report.specs.Report.{placed_size};
ghost use Rattle.report.specs.State.{login_line, node_line, reading_line, flag, mode_word, skip_word, mode_places};

use crate::PLACED;
use line::{Fault, Mode};
use text::{GAP, LINE_END, Page};

const NODE: &[u8] = b"node ";

const LINE: &[u8] = b"line ";

// "login ABCD": a digit for each line, 1 where it is logged in.
pub fn login_line(page: &mut Page, logins: [bool; 4])
    ensures { Writes (login_line logins) page.old page.new }
{
    let mut line = *b"login ABCD\n";
    line[6] = flag(logins[0]);
    line[7] = flag(logins[1]);
    line[8] = flag(logins[2]);
    line[9] = flag(logins[3]);
    page.append(&line);
}

// "node K BYTES": a node's record.
pub fn node_line(page: &mut Page, node: u8, fields: &[u8])
    ensures { Writes (node_line node fields.now) page.old page.new }
{
    page.bytes_line(NODE, u64::from(node), GAP, fields, LINE_END);
}

// "line L M BYTES": how a line's reading stands, and the bytes held; of one that skips, also where its packet broke.
pub fn reading_line(page: &mut Page, line: u8, mode: Mode, held: &[u8])
    ensures { Writes (reading_line line mode held.now) page.old page.new }
{
    let mut room = [0; PLACED];
    let mut behind = Page {
        out: &mut room,
        at: 0,
    };
    put_end(&mut behind, mode);
    page.bytes_line(
        LINE,
        u64::from(line),
        mode_word(mode),
        held,
        behind.written(),
    );
}

fn flag(set: bool) -> u8
    ensures { result ≡ flag set }
{
    if set { b'1' } else { b'0' }
}

// The word of a reading's mode between two spaces.
fn mode_word(mode: Mode) -> &'static [u8]
    ensures { result.now ≡ ascii " " ++ mode_word mode ++ ascii " " }
{
    match mode {
        Mode::Plain => b" plain ",
        Mode::Escaped => b" escaped ",
        Mode::Skipping(fault) => skip_word(fault.fault),
    }
}

// A reading that skips tells the refusal that is due at the END.
fn skip_word(fault: Fault) -> &'static [u8]
    ensures { result.now ≡ ascii " " ++ skip_word fault ++ ascii " " }
{
    match fault {
        Fault::WrongEscape => b" skip1 ",
        Fault::TooLong => b" skip2 ",
    }
}

// What stands behind the bytes held, at the front of some room.
fn put_end(behind: &mut Page, mode: Mode)
    requires { Built placed_size 0 [] behind.old.out.now behind.old.at }
    ensures { Built placed_size placed_size (mode_places mode ++ ascii "\n") behind.new.out.now behind.new.at }
{
    if let Mode::Skipping(fault) = mode {
        behind.append_places(fault.at);
    }
    behind.append(LINE_END);
}
