// The lines of a capture's outcomes, written part by part.
// What is written for some bytes, and how the reading stands after them, is the definition's: specs/Listing.antt, specs/Lists.antt.
ghost use Rattle.std.specs.Prelude.{◌≤◌, ◌≡◌, length};
ghost use Rattle.frame.specs.Reader.{taken};
ghost use Rattle.lister.specs.Lists.{Lists, listed_of};

use crate::Listed;
use crate::lines::LINE;
use line::{Cursor, Reading};
use text::Page;

// Writes the lines of the outcomes of `wire` to the front of `out`, as long as there is room for any line.
pub fn list(reading: Reading, left: u64, wire: &[u8], out: &mut [u8]) -> Listed
    ensures { Lists (taken reading) left wire.now out.old out.new result }
{
    let mut bytes = reading.bytes;
    let mut cursor = frame::taken_cursor(reading);
    // Stays: `at` is counted, no plainer else: bytes used are told, and the bytes before `at` are looked at for the last END.
    let mut at = 0;
    let mut page = Page { out, at: 0 };
    while at < wire.len() {
        // With room for the longest line a call goes on.
        if page.room() < LINE {
            break;
        }
        let told = frame::read_in(&mut bytes, cursor, &wire[at..]);
        crate::outcome::outcome_line(&mut page, told.outcome);
        cursor = told.cursor;
        at += told.used;
    }
    answer(bytes, cursor, left, wire, at, page.at)
}

// The answer where the bytes before `at` were used.
fn answer(
    bytes: [u8; frame::LIMIT],
    cursor: Cursor,
    left: u64,
    wire: &[u8],
    at: usize,
    written: usize,
) -> Listed
    requires { at ≤ length wire.now }
    ensures { result ≡ listed_of bytes cursor left wire.now at written }
{
    let Cursor { count, mode } = cursor;
    Listed {
        used: at,
        written,
        reading: Reading { bytes, count, mode },
        left: crate::left::left_after(left, &wire[..at]),
    }
}
