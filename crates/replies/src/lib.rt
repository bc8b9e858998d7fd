// What the hub says: replies with their fields, and their frames written whole or not at all (document 01, "What the commands do").
// A reply's messages and their layouts are specs/Messages.antt; what a reply of this crate tells is specs/Replies.antt: says.
// It stands on the frame layer's writer and on the node table, of which frame 0210 tells.
#![tactic(auto)]

mod writing;

pub use writing::write;

// A reply by its numbers, which `write` writes as they are. What is told of a node stands in the table: AboutNode is frame 0201 and, where the node is in use, 0210.
// Stays: the statuses are bytes, since `write` writes any number that it is given; an enum of statuses would ask more of callers.
#[derive(Clone, Copy)]
pub enum Reply {
    Nothing,
    Error(u8),
    PasswordEntered(u8),
    PasswordChanged(u8),
    AboutNode(u8),
    VariationSet { status: u8, node: u8 },
    NameSet { status: u8, node: u8 },
    OrderAndPlacementSet { status: u8, node: u8 },
    NodesRemoved(u8),
    VirginStateSet,
    ModeSendConfirmed { session: u16, status: u8 },
    SessionFinished(u16),
}
