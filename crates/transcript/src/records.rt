// The records of the nodes' table.
ghost use Rattle.std.specs.Prelude.{◌+◌, ◌*◌, ◌≤◌, ◌<◌, ◌≡◌, length, IfNone, IfSome};
ghost use Rattle.nodes.specs.Table.{node_count, record_size, record_of};

// A node's record, where it lies within the table.
pub(crate) fn fields_of(table: &[u8], node: usize) -> Option<&[u8]>
    requires { node < node_count }
    ensures none { IfNone result (length table.now < node * record_size + record_size) }
    ensures within { IfSome result (λ fields. node * record_size + record_size ≤ length table.now) }
    ensures fields { IfSome result (λ fields. fields.now ≡ record_of table.now node) }
{
    let start = node * nodes::RECORD;
    table.get(start..start + nodes::RECORD)
}
