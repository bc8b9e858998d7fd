// What the replayed calls answer with a reply: lines of text, appended to a page. Frames and packets are in `outcomes`.
// A line is written whole or not at all, and is the definition's to the byte: specs/Report.antt.
ghost use Rattle.std.specs.Prelude.{◌++◌};
ghost use Rattle.text.specs.Text.{decimal};
ghost use Rattle.text.specs.Page.{Writes};
ghost use Rattle.text.specs.Bytes.{bytes_word};
ghost use Rattle.report.specs.Report.{finished_line, none_line, line_end};

use crate::{REPLY, SPILLED, USED};
use text::{LINE_END, Page};

const FINISHED: &[u8] = b"finished ";

const NONE_REPLY: &[u8] = b" none reply ";

// A reply as a call left it in its room: its bytes, and whether a byte behind them changed.
#[derive(Clone, Copy)]
pub struct Sent<'a> {
    pub bytes: &'a [u8],
    pub spilled: bool,
}

// "finished LINE reply BYTES": the line that is told of its session's end.
pub fn finished_line(page: &mut Page, line: u8, reply: Sent)
    ensures { Writes (finished_line line reply.entry.bytes.now reply.entry.spilled) page.old page.new }
{
    reply_line(page, FINISHED, u64::from(line), REPLY, reply);
}

// "used U none reply BYTES": no outcome yet.
pub fn none_line(page: &mut Page, used: usize, reply: Sent)
    ensures { Writes (none_line used reply.entry.bytes.now reply.entry.spilled) page.old page.new }
{
    reply_line(page, USED, used as u64, NONE_REPLY, reply);
}

// A number between two words, the reply, and the line's end.
pub(crate) fn reply_line(page: &mut Page, before: &[u8], number: u64, behind: &[u8], reply: Sent)
    ensures { Writes (before.now ++ decimal number ++ behind.now ++ bytes_word reply.entry.bytes.now ++ line_end reply.entry.spilled) page.old page.new }
{
    let end = if reply.spilled { SPILLED } else { LINE_END };
    page.bytes_line(before, number, behind, reply.bytes, end);
}
