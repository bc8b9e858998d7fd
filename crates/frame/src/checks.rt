// The checks on a packet in document 01's order, each refusal with its places, the numbers of the refusals, and the exclusive or of bytes.
// Each answer is the definition's: specs/Frame.antt, specs/Answers.antt.
ghost use Rattle.std.specs.Prelude.{◌+◌, ◌≤◌, ◌≡◌, length, get_or};
ghost use Rattle.frame.specs.Frame.{around, claimed, number, judge};
ghost use Rattle.frame.specs.Xor.{xor_all};
ghost use Rattle.frame.specs.Answers.{Judges};
ghost use Rattle.frame.specs.Judgements.{refused_at, InPacket};

use crate::{AROUND, AcceptedFrame, Cause, HEAD, PacketRefusal};
use line::{DecodedPlace, WirePlace};

// The checks on a packet, in their order.
pub fn judge(packet: &[u8]) -> Result<AcceptedFrame, PacketRefusal>
    ensures { Judges (judge packet.now) packet.now result }
{
    let n = packet.len();
    if line::LIMIT < n {
        return Err(refused(Cause::TooLong, packet, line::LIMIT));
    }
    if n < AROUND {
        return Err(refused(Cause::TooShort, packet, n));
    }
    let protocol = packet[0];
    let due = claimed_len(packet);
    if protocol != 0 {
        return Err(refused(Cause::WrongProtocol, packet, 0));
    }
    if n < due {
        return Err(refused(Cause::BelowLength, packet, n));
    }
    if due < n {
        return Err(refused(Cause::BeyondLength, packet, due));
    }
    let last = n - 1;
    if packet[last] != xor_all(&packet[..last]) {
        return Err(refused(Cause::WrongCheck, packet, last));
    }
    Ok(AcceptedFrame {
        command: u16::from_be_bytes([packet[2], packet[3]]),
        start: HEAD,
        len: n - AROUND,
    })
}

// The length that the length byte claims for the whole frame: L + 2.
fn claimed_len(packet: &[u8]) -> usize
    requires { around ≤ length packet.now }
    ensures { result ≡ claimed packet.now }
{
    usize::from(packet[1]) + 2
}

// A refusal at a byte of the packet, or at the END behind it.
fn refused(cause: Cause, packet: &[u8], place: usize) -> PacketRefusal
    requires { InPacket packet.now place }
    ensures { result ≡ refused_at cause packet.now place }
{
    let behind = place + line::escapes(&packet[..place]);
    let at = line::places_at(WirePlace(behind as u16), DecodedPlace(place as u16));
    PacketRefusal { cause, at }
}

// Document 01's number of a cause.
impl From<Cause> for u8 {
    ghost from_gives = { λ cause n. n ≡ number cause };

    fn from(cause: Cause) -> u8 {
        match cause {
            Cause::WrongEscape => 1,
            Cause::TooLong => 2,
            Cause::TooShort => 3,
            Cause::WrongProtocol => 4,
            Cause::BelowLength => 5,
            Cause::BeyondLength => 15,
            Cause::WrongCheck => 6,
        }
    }
}

// The number of a cause, by the conversion.
// Stays: a host calls it, and docs/RELEASE.md names it.
pub fn number(cause: Cause) -> u8
    ensures { result ≡ number cause }
{
    u8::from(cause)
}

// The exclusive or of all bytes.
pub(crate) fn xor_all(bytes: &[u8]) -> u8
    ensures { result ≡ xor_all bytes.now }
{
    bytes.iter().fold(0, |x, b| x ^ b)
}
