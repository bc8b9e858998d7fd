// The nodes in use as `table` writes them: lines of text, appended one behind the other to a page.
// Each is written whole or not at all, and they are the definition's to the byte: specs/State.antt.
ghost use Rattle.std.specs.Prelude.{◌+◌, ◌*◌, ◌<◌, ◌≡◌, length, get_or};
ghost use Rattle.nodes.specs.Table.{node_count, record_size};
ghost use Rattle.transcript.specs.Lines.{WritesAll, lines_below};
ghost use Rattle.transcript.specs.State.{entry_lines, listed_lines, table_lines};

use crate::records::fields_of;
use report::Entry;
use text::Page;

// The nodes and the end.
pub(crate) fn list(page: &mut Page, table: &[u8])
    ensures { WritesAll (table_lines table.now) page.old page.new }
{
    list_nodes(page, table);
    page.append(report::END_LINE);
}

fn list_nodes(page: &mut Page, table: &[u8])
    ensures { WritesAll (lines_below (listed_lines table.now) node_count) page.old page.new }
{
    for node in 0..nodes::NODES {
        list_node(page, table, node);
    }
}

// A record that does not lie within the table is not listed.
fn list_node(page: &mut Page, table: &[u8], node: usize)
    requires { node < node_count }
    ensures { WritesAll (listed_lines table.now node) page.old page.new }
{
    if let Some(fields) = fields_of(table, node) {
        list_record(page, node as u8, fields);
    }
}

// A node that is not in use is not listed.
fn list_record(page: &mut Page, node: u8, fields: &[u8])
    requires { length fields.now ≡ record_size }
    ensures { WritesAll (entry_lines node fields.now) page.old page.new }
{
    if !nodes::in_use(fields, 0) {
        return;
    }
    let entry = Entry {
        node,
        kind: pair_at(fields, nodes::TYPE.at),
        order: pair_at(fields, nodes::ORDER.at),
        placement: memory::byte(fields, nodes::PLACEMENT.at),
        variation: memory::byte(fields, nodes::VARIATION.at),
    };
    let name = nodes::NAME.at;
    report::entry_line(page, entry, &fields[name..name + nodes::NAME.size]);
}

// The number of two bytes, the high one first.
fn pair_at(fields: &[u8], at: usize) -> u16
    requires { at < record_size }
    ensures { result ≡ get_or fields.now at 0 * 256 + get_or fields.now (at + 1) 0 }
{
    u16::from_be_bytes([memory::byte(fields, at), memory::byte(fields, at + 1)])
}
