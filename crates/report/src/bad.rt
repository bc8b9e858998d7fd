// The lines of a script that no call is made of: a line of text, appended to a page.
// It is written whole or not at all, and is the definition's to the byte: specs/Report.antt.
ghost use Rattle.text.specs.Page.{Writes};
ghost use Rattle.report.specs.Report.{bad_line, long_line};

use text::{LINE_END, Page};

// No line is longer in front of its last number.
const HEAD: usize = 42;

const BAD_LINE: &[u8] = b"bad line ";

const WORD: &[u8] = b" word ";

const TOO_LONG: &[u8] = b" too long\n";

// "bad line N word W": the line's number, and that of its first word that cannot be taken.
pub fn bad_line(page: &mut Page, line: u64, word: u8)
    ensures { Writes (bad_line line word) page.old page.new }
{
    let mut room = [0; HEAD];
    let mut head = Page {
        out: &mut room,
        at: 0,
    };
    head.append_numbered(BAD_LINE, line, WORD);
    page.append_numbered(head.written(), u64::from(word), LINE_END);
}

// "bad line N too long".
pub fn long_line(page: &mut Page, line: u64)
    ensures { Writes (long_line line) page.old page.new }
{
    page.append_numbered(BAD_LINE, line, TOO_LONG);
}
