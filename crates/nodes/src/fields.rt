// The node set commands: one field of a record is overwritten (document 01, "What the commands do").
// Statuses and tables are those of specs/Table.antt: set_name, set_order_and_placement, set_variation.
ghost use Rattle.std.specs.Prelude.{◌≤◌, ◌≡◌};
ghost use Rattle.nodes.specs.Table.{record_size, status_number, node_status, set_field, set_name, set_order_and_placement, set_variation, is_rejected};
ghost use Rattle.nodes.specs.Answers.{Results};

use crate::table::in_use;
use crate::{Field, NAME, NodeStatus, ORDER_AND_PLACEMENT, RECORD, VARIATION};

// The greatest variation.
const MAX_VARIATION: u8 = 4;

// Each answer is the status.
// Stays: set_name and set_order_and_placement are two functions, since they are two commands of document 01, and the promises name both; what
// they share is set_field.
pub fn set_name(table: &mut [u8], node: u8, name: &[u8]) -> NodeStatus
    ensures { Results (set_name table.old node name.now) (status_number result) table.new }
{
    set_field(table, usize::from(node), NAME, name)
}

pub fn set_order_and_placement(table: &mut [u8], node: u8, value: &[u8]) -> NodeStatus
    ensures { Results (set_order_and_placement table.old node value.now) (status_number result) table.new }
{
    set_field(table, usize::from(node), ORDER_AND_PLACEMENT, value)
}

pub fn set_variation(table: &mut [u8], node: u8, variation: u8) -> NodeStatus
    ensures { Results (set_variation table.old node variation) (status_number result) table.new }
{
    if is_rejected(table, usize::from(node), variation) {
        return NodeStatus::Rejected;
    }
    set_field(table, usize::from(node), VARIATION, &[variation])
}

// The status that each gives, before anything is stored.
pub fn status(table: &[u8], node: u8) -> NodeStatus
    ensures { status_number result ≡ node_status table.now node }
{
    if in_use(table, usize::from(node)) {
        NodeStatus::Accepted
    } else {
        NodeStatus::InvalidNode
    }
}

pub fn variation_status(table: &[u8], node: u8, variation: u8) -> NodeStatus
    ensures { status_number result ≡ (set_variation table.now node variation).status }
{
    if is_rejected(table, usize::from(node), variation) {
        NodeStatus::Rejected
    } else {
        status(table, node)
    }
}

// Whether the node is in use, and the variation too great for it.
fn is_rejected(table: &[u8], node: usize, variation: u8) -> bool
    ensures { result ≡ is_rejected table.now node variation }
{
    in_use(table, node) && MAX_VARIATION < variation
}

// A field of a node's record is overwritten, where the node is in use.
fn set_field(table: &mut [u8], node: usize, field: Field, value: &[u8]) -> NodeStatus
    requires { field.at ≤ record_size }
    ensures { Results (set_field field table.old node value.now) (status_number result) table.new }
{
    if !in_use(table, node) {
        return NodeStatus::InvalidNode;
    }
    let n = value.len().min(field.size);
    memory::copy(table, node * RECORD + field.at, &value[..n]);
    NodeStatus::Accepted
}
