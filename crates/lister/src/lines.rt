// The lines of the listing, appended to a page.
// A line is written whole or not at all, and is the definition's to the byte: specs/Lines.antt.
ghost use Rattle.std.specs.Prelude.{◌≡◌, true};
ghost use Rattle.text.specs.Page.{Writes};
ghost use Rattle.lister.specs.Lines.{frame_line, refused_line, left_line, is_short};

use line::Places;
use text::{DATA, LINE_END, Page, REFUSED};

// No line is longer.
pub const LINE: usize = 64;

const FRAME: &[u8] = b"frame ";

const LEFT: &[u8] = b"left ";

// "frame CCCC data D": a frame's command, and how many data bytes it has.
pub(crate) fn frame_line(page: &mut Page, command: u16, len: usize)
    ensures { Writes (frame_line command len) page.old page.new }
{
    let number = len as u64;
    let count = text::width(number);
    if page.room() < 17 + count {
        return;
    }
    page.append(FRAME);
    page.append_hex4(command);
    page.append(DATA);
    page.append_decimal(number);
    page.append(LINE_END);
}

// "refused N at W D": a refusal's number, and where its packet broke.
pub(crate) fn refused_line(page: &mut Page, number: u8, places: Places)
    ensures { Writes (refused_line number places) page.old page.new }
{
    if is_short(number, places) {
        return page.append(&short_line(number, places));
    }
    long_line(page, number, places);
}

// Whether each number is one digit: so it is in all pieces of up to nine wire bytes, of which a capture may have many.
fn is_short(number: u8, places: Places) -> bool
    ensures { result ≡ is_short number places }
{
    number <= 9 && places.wire.0 <= 9 && places.decoded.0 <= 9
}

// Their line, which is written in one piece.
fn short_line(number: u8, places: Places) -> [u8; 17]
    requires { is_short number places ≡ true }
    ensures { result ≡ refused_line number places }
{
    let mut line = *b"refused N at W D\n";
    line[8] = b'0' + number;
    line[13] = b'0' + (places.wire.0 as u8);
    line[15] = b'0' + (places.decoded.0 as u8);
    line
}

// The line of any numbers, word by word.
fn long_line(page: &mut Page, number: u8, places: Places)
    ensures { Writes (refused_line number places) page.old page.new }
{
    let refusal = u64::from(number);
    let count = text::width(refusal) + text::places_width(places);
    if page.room() < 9 + count {
        return;
    }
    page.append(REFUSED);
    page.append_decimal(refusal);
    page.append_places(places);
    page.append(LINE_END);
}

// "left N": how many bytes are left.
pub(crate) fn left_line(page: &mut Page, left: u64)
    ensures { Writes (left_line left) page.old page.new }
{
    page.append_numbered(LEFT, left, LINE_END);
}
