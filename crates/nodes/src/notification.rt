// What is told of a node: the data of frame 0210 (document 01, get node information).
// They are those of specs/Table.antt: informed.
ghost use Rattle.std.specs.Prelude.{◌+◌, ◌≤◌, ◌<◌, ◌≡◌, length};
ghost use Rattle.memory.specs.Wrote.{Wrote};
ghost use Rattle.nodes.specs.Table.{node_count, record_size, table_size, information_size, field_of, information, informed};

use crate::table::in_use;
use crate::{Field, INFORMATION, NAME, ORDER, PLACEMENT, RECORD, TABLE, TYPE, VARIATION};

// The data of frame 0210, where the node is in use; a table of another length tells of none.
pub fn information(table: &[u8], node: u8) -> Option<[u8; INFORMATION]>
    ensures { result ≡ informed table.now node }
{
    if table.len() == TABLE && in_use(table, usize::from(node)) {
        Some(information_of(table, node))
    } else {
        None
    }
}

fn information_of(table: &[u8], node: u8) -> [u8; INFORMATION]
    requires { (length table.now ≡ table_size) × (node < node_count) }
    ensures { result ≡ information table.now node }
{
    let mut out = [0u8; INFORMATION];
    out[0] = node;
    let placement = put_field(&mut out, 1, table, node, ORDER);
    let name = put_field(&mut out, placement, table, node, PLACEMENT);
    let velocity = put_field(&mut out, name, table, node, NAME);
    memory::fill(&mut out, velocity, 1, 0);
    let group = put_field(&mut out, velocity + 1, table, node, TYPE);
    memory::fill(&mut out, group, 2, 0);
    let power = put_field(&mut out, group + 2, table, node, VARIATION);
    memory::fill(&mut out, power, 50, 0);
    out
}

// A field of a node's record, from a place on; the answer is the place behind it.
fn put_field(out: &mut [u8], at: usize, table: &[u8], node: u8, field: Field) -> usize
    requires { (length table.now ≡ table_size) × (node < node_count) × (field.at + field.size ≤ record_size) × (at ≤ information_size) }
    ensures { Wrote out.old at (field_of table.now node field) out.new result × (result ≡ at + field.size) }
{
    let start = usize::from(node) * RECORD + field.at;
    memory::copy(out, at, &table[start..start + field.size]);
    at + field.size
}
