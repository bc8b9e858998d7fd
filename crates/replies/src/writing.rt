// A reply's frames in the room: all of them, or refusal 9 and the room as it was lent.
// The answer and the room are those of specs/Replies.antt: write_all.
ghost use Rattle.std.specs.Prelude.{◌≤◌, ◌≡◌, ◌++◌, length};
ghost use Rattle.frame.specs.Frame.{wire, max_data};
ghost use Rattle.frame.specs.Writer.{told, Writes};
ghost use Rattle.replies.specs.Messages.{bytes_of, about_node};
ghost use Rattle.replies.specs.Replies.{says, write_all};

use crate::Reply;
use frame::WriteRefusal;
use nodes::NodeStatus;

// A reply at the room's front.
pub fn write(room: &mut [u8], reply: Reply, table: &[u8]) -> Result<usize, WriteRefusal>
    ensures { Writes (write_all room.old (bytes_of (says table.now reply))) (told result) room.new }
{
    match reply {
        Reply::Nothing => Ok(0),
        Reply::Error(error) => one(room, 0x0000, &[error]),
        Reply::PasswordEntered(status) => one(room, 0x3001, &[status]),
        Reply::PasswordChanged(status) => one(room, 0x3003, &[status]),
        Reply::AboutNode(node) => about_node(room, table, node),
        Reply::VariationSet { status, node } => one(room, 0x0207, &[status, node]),
        Reply::NameSet { status, node } => one(room, 0x0209, &[status, node]),
        Reply::OrderAndPlacementSet { status, node } => one(room, 0x020E, &[status, node]),
        Reply::NodesRemoved(scene_deleted) => one(room, 0x0107, &[scene_deleted]),
        Reply::VirginStateSet => one(room, 0x0109, &[]),
        Reply::ModeSendConfirmed { session, status } => {
            let [high, low] = session.to_be_bytes();
            one(room, 0x0321, &[high, low, status])
        }
        Reply::SessionFinished(session) => one(room, 0x0304, &session.to_be_bytes()),
    }
}

// A reply of one frame.
fn one(room: &mut [u8], command: u16, payload: &[u8]) -> Result<usize, WriteRefusal>
    requires { length payload.now ≤ max_data }
    ensures { Writes (write_all room.old (wire command payload.now)) (told result) room.new }
{
    frame::write(room, command, payload)
}

// Frame 0201, and 0210 behind it where the node is in use.
fn about_node(room: &mut [u8], table: &[u8], node: u8) -> Result<usize, WriteRefusal>
    ensures { Writes (write_all room.old (bytes_of (about_node table.now node))) (told result) room.new }
{
    match nodes::information(table, node) {
        Some(bytes) => {
            let status = u8::from(NodeStatus::Accepted);
            both(room, 0x0201, &[status, node], 0x0210, &bytes)
        }
        None => {
            let status = u8::from(NodeStatus::InvalidNode);
            one(room, 0x0201, &[status, node])
        }
    }
}

// Two frames, both or none: the second is written first, behind the place that the first one will fill.
fn both(
    room: &mut [u8],
    command: u16,
    payload: &[u8],
    next: u16,
    behind: &[u8],
) -> Result<usize, WriteRefusal>
    requires { (length payload.now ≤ max_data) × (length behind.now ≤ max_data) }
    ensures { Writes (write_all room.old (wire command payload.now ++ wire next behind.now)) (told result) room.new }
{
    let start = frame::measure(command, payload)?;
    let end = frame::write_at(room, start, next, behind)?;
    frame::write_at(room, 0, command, payload)?;
    Ok(end)
}
