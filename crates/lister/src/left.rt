// The wire bytes since the last END, and the last line of a listing, which tells them.
// The count and the line are the definition's: specs/Listing.antt, specs/Lists.antt.
ghost use Rattle.std.specs.Prelude.{◌==◌, ◌≡◌, position, reverse};
ghost use Rattle.frame.specs.Reader.{END};
ghost use Rattle.lister.specs.Listing.{left_after, capped};
ghost use Rattle.lister.specs.Lists.{LastLine};

use text::Page;

// The last line of a listing, at the front of `out` if it fits there; the answer is its length, or 0.
pub fn last_line(out: &mut [u8], left: u64) -> usize
    ensures { LastLine left out.old out.new result }
{
    let mut page = Page { out, at: 0 };
    crate::lines::left_line(&mut page, left);
    page.at
}

// The wire bytes since the last END, where `left` stood before; no more than 64 bits hold.
pub(crate) fn left_after(left: u64, wire: &[u8]) -> u64
    ensures { result ≡ capped (left_after left wire.now) }
{
    match behind_end(wire) {
        Some(n) => n as u64,
        None => left.saturating_add(wire.len() as u64),
    }
}

// How many bytes stand behind the last END.
fn behind_end(wire: &[u8]) -> Option<usize>
    ensures { result ≡ position (λ b. b == END) (reverse wire.now) }
{
    wire.iter().rev().position(|byte| *byte == frame::END)
}
