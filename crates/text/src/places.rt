// Where a packet broke, as text: both places of a byte, the one on the wire first, appended to a page.
// The words are written whole or not at all, and are the definition's to the byte: specs/Places.antt, specs/Page.antt.
ghost use Rattle.std.specs.Prelude.{◌≡◌, length};
ghost use Rattle.text.specs.Places.{places_word};
ghost use Rattle.text.specs.Page.{Writes};

use crate::page::Page;
use crate::words::GAP;
use line::Places;

const AT: &[u8] = b" at ";

impl Page<'_> {
    // " at W D": a byte's wire place and its decoded place.
    pub fn append_places(&mut self, places: Places)
        ensures { Writes (places_word places) self.old self.new }
    {
        if self.room() < places_width(places) {
            return;
        }
        let Places { wire, decoded } = places;
        self.append_numbered(AT, u64::from(wire.0), GAP);
        self.append_decimal(u64::from(decoded.0));
    }
}

// How many bytes the words have.
pub fn places_width(places: Places) -> usize
    ensures { result ≡ length (places_word places) }
{
    let Places { wire, decoded } = places;
    5 + crate::digits::width(u64::from(wire.0)) + crate::digits::width(u64::from(decoded.0))
}
