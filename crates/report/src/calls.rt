// The line of a call that was refused, and whether a call wrote behind its reply. Lines with a reply are in `replies`.
// A line is written whole or not at all, and is the definition's to the byte: specs/Report.antt.
ghost use Rattle.std.specs.Prelude.{◌≡◌};
ghost use Rattle.text.specs.Page.{Writes};
ghost use Rattle.report.specs.Report.{refused_line, has_spilled};

use crate::SPILLED;
use text::{LINE_END, Page, REFUSED};

// "refused N": the number of a call's refusal.
pub fn refused_line(page: &mut Page, number: u8, spilled: bool)
    ensures { Writes (refused_line number spilled) page.old page.new }
{
    let end = if spilled { SPILLED } else { LINE_END };
    page.append_numbered(REFUSED, u64::from(number), end);
}

// Whether a byte from `from` on is not the filler any more. All bytes are looked at: a loop without an early end is the faster one.
pub fn spilled(room: &[u8], from: usize, filler: u8) -> bool
    ensures { result ≡ has_spilled room.now from filler }
{
    let mut found = false;
    for byte in &room[from.min(room.len())..] {
        found |= *byte != filler;
    }
    found
}
