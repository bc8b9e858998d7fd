// An open session's slot as `show` writes it: a line of text, appended to a page.
// It is written whole or not at all, and is the definition's to the byte: specs/State.antt.
ghost use Rattle.std.specs.Prelude.{◌+◌, ◌*◌, ◌≤◌, ◌<◌, [], ◌++◌, length};
ghost use Rattle.memory.specs.Wrote.{Wrote};
ghost use Rattle.sessions.specs.Sessions.{target_count};
ghost use Rattle.text.specs.Text.{ascii, decimal, hex4};
ghost use Rattle.text.specs.Built.{Built};
ghost use Rattle.text.specs.Page.{Writes};
ghost use Rattle.report.specs.State.{slot_size, slot_line, node_word, nodes_below};

use sessions::{MARKS, TARGETS};
use text::{GAP, LINE_END, NOTHING, Page};

// No line is longer.
const SLOT_SIZE: usize = 1024;

const SLOT: &[u8] = b"slot ";

const SESSION: &[u8] = b" session ";

const LINE: &[u8] = b" line ";

const NODES: &[u8] = b" nodes";

// "slot S session NNNN line L nodes N N N": an open session's slot, number, line and nodes, ascending.
pub fn slot_line(page: &mut Page, slot: u8, session: u16, line: u8, nodes: [u8; MARKS])
    ensures { Writes (slot_line slot session line nodes) page.old page.new }
{
    let mut room = [0; SLOT_SIZE];
    let mut whole = Page {
        out: &mut room,
        at: 0,
    };
    put_slot(&mut whole, slot, session, line, nodes);
    page.append(whole.written());
}

// The whole line, at the front of some room.
fn put_slot(whole: &mut Page, slot: u8, session: u16, line: u8, nodes: [u8; MARKS])
    requires { Built slot_size 0 [] whole.old.out.now whole.old.at }
    ensures { Built slot_size slot_size (slot_line slot session line nodes) whole.new.out.now whole.new.at }
{
    put_head(whole, slot, session);
    whole.append_numbered(LINE, u64::from(line), NODES);
    put_nodes(whole, nodes);
    whole.append(LINE_END);
}

// The line up to its session's number.
fn put_head(whole: &mut Page, slot: u8, session: u16)
    requires { Built slot_size 0 [] whole.old.out.now whole.old.at }
    ensures { Built slot_size 38 (ascii "slot " ++ decimal slot ++ ascii " session " ++ hex4 session) whole.new.out.now whole.new.at }
{
    whole.append_numbered(SLOT, u64::from(slot), SESSION);
    whole.append_hex4(session);
}

// The nodes that are marked, each behind a space: no more than four bytes a node.
fn put_nodes(page: &mut Page, nodes: [u8; MARKS])
    requires { page.old.at + 4 * target_count ≤ length page.old.out.now }
    ensures { Wrote page.old.out.now page.old.at (nodes_below target_count nodes) page.new.out.now page.new.at }
{
    for node in 0..TARGETS {
        put_node(page, node, nodes::bit(&nodes, node));
    }
}

fn put_node(page: &mut Page, node: usize, marked: bool)
    requires { (node < target_count) × (page.old.at + 4 ≤ length page.old.out.now) }
    ensures { Wrote page.old.out.now page.old.at (node_word node marked) page.new.out.now page.new.at }
{
    if marked {
        page.append_numbered(GAP, node as u64, NOTHING);
    }
}
