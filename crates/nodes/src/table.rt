// Which nodes are in use, a node's bit, and removal (document 01, remove nodes).
// Answers and tables are those of specs/Table.antt: in_use, bit, is_removed, remove.
ghost use Rattle.std.specs.Prelude.{◌<◌, ◌≡◌};
ghost use Rattle.nodes.specs.Table.{node_count, in_use, bit, is_removed, remove_one, remove};

use crate::{NODES, RECORD};

// Whether a node is in use.
pub fn in_use(table: &[u8], node: usize) -> bool
    ensures { result ≡ in_use table.now node }
{
    node < NODES && memory::byte(table, node * RECORD) == 1
}

// Whether bit k of some bytes is set, least significant first.
pub fn bit(bytes: &[u8], k: usize) -> bool
    ensures { result ≡ bit bytes.now k }
{
    (memory::byte(bytes, k / 8) >> (k % 8)) % 2 == 1
}

// Whether the bits name node k, and it is in use.
pub fn is_removed(table: &[u8], bits: &[u8], k: usize) -> bool
    ensures { result ≡ is_removed table.now bits.now k }
{
    bit(bits, k) && in_use(table, k)
}

// The nodes in use that the bits name are removed.
pub fn remove(table: &mut [u8], bits: &[u8])
    ensures { table.new ≡ remove bits.now table.old }
{
    for k in 0..NODES {
        remove_one(table, bits, k);
    }
}

fn remove_one(table: &mut [u8], bits: &[u8], k: usize)
    requires { k < node_count }
    ensures { table.new ≡ remove_one bits.now k table.old }
{
    if is_removed(table, bits, k) {
        memory::fill(table, k * RECORD, RECORD, 0);
    }
}
