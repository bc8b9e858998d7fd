// A node in use as `table` writes it: a line of text, appended to a page.
// It is written whole or not at all, and is the definition's to the byte: specs/Entry.antt.
ghost use Rattle.std.specs.Prelude.{◌≤◌, [], ◌++◌, length};
ghost use Rattle.text.specs.Text.{ascii};
ghost use Rattle.text.specs.Built.{Built};
ghost use Rattle.text.specs.Page.{Writes};
ghost use Rattle.report.specs.Entry.{entry_size, name_size, name_of, shown_all, entry_head, entry_line};

use text::{NOTHING, Page};

// No line is longer.
const ENTRY_SIZE: usize = 400;

// No name has more bytes.
const NAME_SIZE: usize = 64;

const NODE: &[u8] = b"node ";

const TYPE: &[u8] = b" type ";

const ORDER: &[u8] = b" order ";

const PLACEMENT: &[u8] = b" placement ";

const VARIATION: &[u8] = b" variation ";

const NAME: &[u8] = b" name \"";

const QUOTE_END: &[u8] = b"\"\n";

// A node in use, but for its name.
#[derive(Clone, Copy)]
pub struct Entry {
    pub node: u8,
    pub kind: u16,
    pub order: u16,
    pub placement: u8,
    pub variation: u8,
}

// `node K type TTTT order O placement P variation V name "TEXT"`: a node's fields; of the name no more than 64 bytes are looked at.
pub fn entry_line(page: &mut Page, entry: Entry, name: &[u8])
    ensures { Writes (entry_line entry.node entry.kind entry.order entry.placement entry.variation name.now) page.old page.new }
{
    let mut room = [0; ENTRY_SIZE];
    let mut whole = Page {
        out: &mut room,
        at: 0,
    };
    put_entry(&mut whole, entry, &name[..name.len().min(NAME_SIZE)]);
    page.append(whole.written());
}

// The whole line, at the front of some room.
fn put_entry(whole: &mut Page, entry: Entry, name: &[u8])
    requires empty { Built entry_size 0 [] whole.old.out.now whole.old.at }
    requires short { length name.now ≤ name_size }
    ensures { Built entry_size entry_size (entry_head entry.node entry.kind entry.order entry.placement entry.variation ++ shown_all (name_of name.now) ++ ascii "\"\n") whole.new.out.now whole.new.at }
{
    put_head(whole, entry);
    let len = crate::names::name_length(name);
    crate::names::put_name(whole, &name[..len]);
    whole.append(QUOTE_END);
}

// The line up to its name, at the front of some room.
fn put_head(whole: &mut Page, entry: Entry)
    requires { Built entry_size 0 [] whole.old.out.now whole.old.at }
    ensures { Built entry_size 131 (entry_head entry.node entry.kind entry.order entry.placement entry.variation) whole.new.out.now whole.new.at }
{
    whole.append_numbered(NODE, u64::from(entry.node), TYPE);
    whole.append_hex4(entry.kind);
    whole.append_numbered(ORDER, u64::from(entry.order), NOTHING);
    whole.append_numbered(PLACEMENT, u64::from(entry.placement), NOTHING);
    whole.append_numbered(VARIATION, u64::from(entry.variation), NAME);
}
