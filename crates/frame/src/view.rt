// The view: an accepted frame shown as a part of the caller's own bytes, its data neither copied nor moved; of a packet that is not
// accepted, why.
// What is shown is the definition's, and the data are that very part of the lent slice: specs/View.antt.
ghost use Rattle.std.specs.Prelude.{◌≡◌};
ghost use Rattle.frame.specs.Frame.{judge};
ghost use Rattle.frame.specs.View.{Shows};

use line::{DecodedPlace, Places, WirePlace};

// A frame's command number and its data, where they lie, 0 and the places 0 and 0; of a refused packet, 0, the empty part at its start,
// document 01's number of its refusal, and where it broke. The wire place is that in the bytes' one escaped form.
// Stays: a form that document 01 names, a struct with a reference, shown by thin functions.
#[derive(Clone, Copy)]
pub struct View<'a> {
    pub command: u16,
    pub data: &'a [u8],
    pub refusal: u8,
    pub at: Places,
}

// The view of a packet.
pub fn show<'a>(bytes: &'a [u8]) -> View<'a>
    ensures { Shows (judge bytes.now) bytes.entry result }
{
    match crate::checks::judge(bytes) {
        Ok(frame) => View {
            command: frame.command,
            data: &bytes[frame.start..frame.start + frame.len],
            refusal: 0,
            at: line::places_at(WirePlace(0), DecodedPlace(0)),
        },
        Err(refusal) => View {
            command: 0,
            data: &bytes[..0],
            refusal: crate::checks::number(refusal.cause),
            at: refusal.at,
        },
    }
}

// The command number that a view shows.
pub fn command<'a>(view: View<'a>) -> u16
    ensures { result ≡ view.entry.command }
{
    view.command
}

// The data that a view shows, where they lie.
pub fn data<'a>(view: View<'a>) -> &'a [u8]
    ensures { result ≡ view.entry.«data» }
{
    view.data
}

// The number of refusal that a view shows, 0 if the packet was accepted.
pub fn refusal<'a>(view: View<'a>) -> u8
    ensures { result ≡ view.entry.refusal }
{
    view.refusal
}

// Where the packet broke that a view shows, 0 and 0 if it was accepted.
pub fn broken_at<'a>(view: View<'a>) -> Places
    ensures { result ≡ view.entry.at }
{
    view.at
}
