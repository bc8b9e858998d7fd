// The pieces of the programs' lines: words, numbers, bytes in hexadecimal and where a packet broke, each appended to a page, that is to lent
// memory at a place. A piece is written whole or not at all, and is the definition's to the byte (specs/Text.antt, specs/Bytes.antt,
// specs/Places.antt, specs/Page.antt, specs/Appended.antt). It stands on `memory`, and on `line` for a byte's two places.
#![tactic(auto)]

mod bytes;
mod digits;
mod numbered;
mod page;
mod places;
mod words;

pub use digits::width;
pub use page::Page;
pub use places::places_width;
pub use words::{COLON, DATA, GAP, LINE_END, NO_BYTES, NOTHING, PACKET, REFUSED};
