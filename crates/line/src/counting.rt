// Places on the wire: what decoded bytes take there, and where a fault is behind them (specs/Places.antt, specs/Reader.antt).
ghost use Rattle.std.specs.Prelude.{◌+◌, ◌≤◌, ◌≡◌, [], ◌∷◌, length, take};
ghost use Rattle.line.specs.Places.{wire_length};
ghost use Rattle.line.specs.Reader.{limit};
ghost use Rattle.line.specs.Reachable.{decoded_fits, possible};
ghost use Rattle.line.specs.Step.{is_special, wire_by, fault_behind, between};

use crate::{DecodedPlace, END, ESC, Fault, FaultAt, LIMIT, Places, WirePlace};

// Whether a byte is sent escaped.
pub(crate) fn is_special(b: u8) -> bool
    ensures { result ≡ is_special b }
{
    matches!(b, END | ESC)
}

// How many wire bytes a decoded byte takes.
#[tactic(auto, using(crate::proofs::CountingLaws::special_width))]
pub fn width(b: u8) -> usize
    ensures { result ≡ wire_length (b ∷ []) }
{
    if is_special(b) { 2 } else { 1 }
}

// How many ESCs stand in the escaped form of these bytes.
// Stays: a sum; tried, of `filter` and `count` each byte took a test and a jump, and listing refused packets took longer.
pub fn escapes(bytes: &[u8]) -> usize
    ensures { length bytes.now + result ≡ wire_length bytes.now }
{
    let mut added = 0;
    for b in bytes {
        added += width(*b) - 1;
    }
    added
}

// Both places of a byte.
pub fn places_at(wire: WirePlace, decoded: DecodedPlace) -> Places
    ensures { result ≡ record { wire = wire; decoded = decoded } }
{
    Places { wire, decoded }
}

// A fault that the next byte meets behind the bytes held, the first `count`.
pub(crate) fn fault_behind(fault: Fault, bytes: &[u8; LIMIT], count: usize) -> FaultAt
    requires { count ≤ limit }
    ensures { result ≡ fault_behind fault (take count bytes.now) }
{
    let behind = count + escapes(&bytes[..count]);
    let wire = match fault {
        Fault::WrongEscape => behind + 1,
        Fault::TooLong => behind,
    };
    fault_at(fault, WirePlace(wire as u16), DecodedPlace(count as u16))
}

fn fault_at(fault: Fault, wire: WirePlace, decoded: DecodedPlace) -> FaultAt
    ensures { result ≡ record { fault = fault; at = record { wire = wire; decoded = decoded } } }
{
    FaultAt {
        fault,
        at: places_at(wire, decoded),
    }
}

// Whether some bytes leave a record that skips for this fault: its wire place lies between that with none of the bytes before it escaped
// and that with all.
pub(crate) fn is_possible(fault: FaultAt) -> bool
    ensures { result ≡ possible fault }
{
    let Places { wire, decoded } = fault.at;
    decoded_fits(fault.fault, decoded)
        && is_between(
            wire,
            wire_by(1, fault.fault, decoded),
            wire_by(2, fault.fault, decoded),
        )
}

// Whether a fault may have this decoded place.
#[tactic(auto, unfolding(crate::specs::Reachable::decoded_fits))]
fn decoded_fits(fault: Fault, decoded: DecodedPlace) -> bool
    ensures { result ≡ decoded_fits fault decoded }
{
    match fault {
        Fault::WrongEscape => usize::from(decoded.0) <= LIMIT,
        Fault::TooLong => usize::from(decoded.0) == LIMIT,
    }
}

// A fault's wire place, by its decoded place, where each byte before it takes `width` wire bytes.
fn wire_by(width: u16, fault: Fault, decoded: DecodedPlace) -> WirePlace
    requires { (width ≤ 2) × (decoded.0 ≤ limit) }
    ensures { result ≡ wire_by width fault decoded }
{
    let before = width * decoded.0;
    match fault {
        Fault::WrongEscape => WirePlace(before + 1),
        Fault::TooLong => WirePlace(before),
    }
}

fn is_between(wire: WirePlace, least: WirePlace, most: WirePlace) -> bool
    ensures { result ≡ between wire least most }
{
    (least.0..=most.0).contains(&wire.0)
}
