// What a replayed feed answers that ended a packet: lines of text, appended to a page.
// A line is written whole or not at all, and is the definition's to the byte: specs/Report.antt.
ghost use Rattle.text.specs.Page.{Writes};
ghost use Rattle.report.specs.Report.{frame_line, packet_line};

use crate::replies::Sent;
use crate::{PLACED, REPLY, USED};
use line::Places;
use text::{DATA, PACKET, Page};

// No line is longer in front of its last number.
const HEAD: usize = 42;

const FRAME: &[u8] = b" frame ";

// "used U frame CCCC data D reply BYTES": a frame's command, and how many data bytes it has.
// Stays: it shares with packet_line an empty room and one append; a function of these needs a clause longer than they.
pub fn frame_line(page: &mut Page, used: usize, command: u16, len: usize, reply: Sent)
    ensures { Writes (frame_line used command len reply.entry.bytes.now reply.entry.spilled) page.old page.new }
{
    let mut room = [0; HEAD];
    let mut head = Page {
        out: &mut room,
        at: 0,
    };
    head.append_numbered(USED, used as u64, FRAME);
    head.append_hex4(command);
    head.append(DATA);
    crate::replies::reply_line(page, head.written(), len as u64, REPLY, reply);
}

// "used U packet R at W D reply BYTES": the number of a packet's refusal, and where the packet broke.
pub fn packet_line(page: &mut Page, used: usize, number: u8, places: Places, reply: Sent)
    ensures { Writes (packet_line used number places reply.entry.bytes.now reply.entry.spilled) page.old page.new }
{
    let mut room = [0; HEAD];
    let mut head = Page {
        out: &mut room,
        at: 0,
    };
    head.append_numbered(USED, used as u64, PACKET);
    let mut more = [0; PLACED];
    let mut behind = Page {
        out: &mut more,
        at: 0,
    };
    behind.append_places(places);
    behind.append(REPLY);
    crate::replies::reply_line(
        page,
        head.written(),
        u64::from(number),
        behind.written(),
        reply,
    );
}
