// The node table emptied, and a node's record made anew (document 01, start, enrol and virgin state).
// The table that each call leaves is that of specs/Table.antt: emptied, enrolled.
ghost use Rattle.std.specs.Prelude.{◌≡◌};
ghost use Rattle.nodes.specs.Table.{emptied, enrolled};

use crate::{NAME, RECORD};

// All bytes become zero.
pub fn empty(table: &mut [u8])
    ensures { table.new ≡ emptied table.old }
{
    table.fill(0);
}

// A node's record is made anew: in use, with its type.
pub fn enrol(table: &mut [u8], node: u8, kind: u16)
    ensures { table.new ≡ enrolled table.old node kind }
{
    let at = usize::from(node) * RECORD;
    let [high, low] = kind.to_be_bytes();
    memory::copy(table, at, &[1, high, low]);
    memory::fill(table, at + NAME.at, RECORD - NAME.at, 0);
}
