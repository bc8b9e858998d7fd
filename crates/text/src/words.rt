// Words of the programs' lines.

// A line's end, and the space between two words.
pub const LINE_END: &[u8] = b"\n";

pub const GAP: &[u8] = b" ";

// Where no word stands before or behind a number.
pub const NOTHING: &[u8] = b"";

// The word for no bytes.
pub const NO_BYTES: &[u8] = b"-";

// Words that several programs write.
pub const DATA: &[u8] = b" data ";

pub const PACKET: &[u8] = b" packet ";

pub const REFUSED: &[u8] = b"refused ";

pub const COLON: &[u8] = b":";
