// The state as `show` writes it: lines of text, appended one behind the other to a page.
// Each is written whole or not at all, and they are the definition's to the byte: specs/State.antt.
ghost use Rattle.std.specs.Prelude.{◌<◌, ◌≡◌, map, get_or};
ghost use Rattle.frame.specs.Reader.{emptied, taken};
ghost use Rattle.nodes.specs.Table.{node_count};
ghost use Rattle.sessions.specs.Sessions.{slot_count, slot_at};
ghost use Rattle.rules.specs.Hub.{line_count, is_listed};
ghost use Rattle.transcript.specs.Lines.{WritesAll, lines_below};
ghost use Rattle.transcript.specs.State.{lines, slot_lines, record_lines, node_lines, reading_lines, state_lines};

use crate::records::fields_of;
use line::Reading;
use rules::{Hub, LINES};
use sessions::{SLOTS, Slot};
use text::Page;

// The logins, the open slots, the nodes, the reading records and the end.
pub(crate) fn show(page: &mut Page, hub: Hub, table: &[u8], readings: [Reading; LINES])
    ensures { WritesAll (state_lines hub table.now (map taken readings)) page.old page.new }
{
    report::login_line(page, logged_in(hub.logins));
    show_slots(page, &hub.slots);
    show_nodes(page, table);
    show_readings(page, readings);
    page.append(report::END_LINE);
}

// Which lines are logged in.
fn logged_in(logins: [u8; LINES]) -> [bool; LINES]
    ensures { result ≡ map (is_listed logins) lines }
{
    [
        rules::is_logged_in(logins, 0),
        rules::is_logged_in(logins, 1),
        rules::is_logged_in(logins, 2),
        rules::is_logged_in(logins, 3),
    ]
}

fn show_slots(page: &mut Page, slots: &[u8; sessions::TABLE])
    ensures { WritesAll (lines_below (λ k. slot_lines k (slot_at slots.now k)) slot_count) page.old page.new }
{
    for k in 0..SLOTS {
        show_slot(page, k as u8, sessions::slot_at(slots, k));
    }
}

// A slot that is not open is not shown.
fn show_slot(page: &mut Page, k: u8, slot: Slot)
    ensures { WritesAll (slot_lines k slot) page.old page.new }
{
    if sessions::is_open(slot) {
        report::slot_line(page, k, slot.number, slot.line, slot.nodes);
    }
}

fn show_nodes(page: &mut Page, table: &[u8])
    ensures { WritesAll (lines_below (node_lines table.now) node_count) page.old page.new }
{
    for node in 0..nodes::NODES {
        show_node(page, table, node);
    }
}

// A record that does not lie within the table is not shown.
fn show_node(page: &mut Page, table: &[u8], node: usize)
    requires { node < node_count }
    ensures { WritesAll (node_lines table.now node) page.old page.new }
{
    if let Some(fields) = fields_of(table, node) {
        show_record(page, node as u8, fields);
    }
}

// A record that is all zero is not shown.
fn show_record(page: &mut Page, node: u8, fields: &[u8])
    ensures { WritesAll (record_lines node fields.now) page.old page.new }
{
    if report::spilled(fields, 0, 0) {
        report::node_line(page, node, fields);
    }
}

fn show_readings(page: &mut Page, readings: [Reading; LINES])
    ensures { WritesAll (lines_below (λ k. reading_lines k (get_or (map taken readings) k emptied)) line_count) page.old page.new }
{
    for k in 0..LINES {
        show_reading(page, k as u8, readings[k]);
    }
}

// A reading is shown as its record is taken.
fn show_reading(page: &mut Page, k: u8, reading: Reading)
    ensures { WritesAll (reading_lines k (taken reading)) page.old page.new }
{
    let cursor = frame::taken_cursor(reading);
    report::reading_line(page, k, cursor.mode, &reading.bytes[..cursor.count]);
}
