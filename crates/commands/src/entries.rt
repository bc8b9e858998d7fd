// The directory's lines, appended to a page.
// A line is written whole or not at all, and is the definition's to the byte: lister/specs/Lines.antt.
ghost use Rattle.text.specs.Page.{Writes};
ghost use Rattle.lister.specs.Lines.{entry_line};

use directory::Entry;
use text::{GAP, LINE_END, NOTHING, Page};

// "CCCC L G": a command, and the least and the greatest length of its data.
pub fn entry_line(page: &mut Page, entry: Entry)
    ensures { Writes (entry_line entry.number entry.least entry.greatest) page.old page.new }
{
    let low = u64::from(entry.least);
    let high = u64::from(entry.greatest);
    if page.room() < 7 + text::width(low) + text::width(high) {
        return;
    }
    page.append_hex4(entry.number);
    page.append_numbered(GAP, low, NOTHING);
    page.append_numbered(GAP, high, LINE_END);
}
