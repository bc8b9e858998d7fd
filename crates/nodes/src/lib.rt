// The node table: 200 records of 72 lent bytes, and what the node commands do to it (document 01, "What the commands do").
// Each call's answer, and every byte of the table that it leaves, are those of specs/Table.antt.
// It stands on `memory`.
#![tactic(auto)]

ghost use Rattle.std.specs.Prelude.{◌≡◌};
ghost use Rattle.nodes.specs.Table.{status_number};

mod enrolment;
mod fields;
mod notification;
mod table;

pub use enrolment::{empty, enrol};
pub use fields::{set_name, set_order_and_placement, set_variation, status, variation_status};
pub use notification::information;
pub use table::{bit, in_use, is_removed, remove};

// How many nodes there are, how long a record is, and the table of all records.
// Stays: the table is lent bytes and not an array of records: fixed memory that the host lends, in the layout of document 01.
pub const NODES: usize = 200;

pub const RECORD: usize = 72;

pub const TABLE: usize = NODES * RECORD;

// How many bytes a node's information has.
pub const INFORMATION: usize = 124;

// A node command's status.
#[derive(Clone, Copy, PartialEq, Eq, Debug)]
pub enum NodeStatus {
    Accepted,
    Rejected,
    InvalidNode,
}

// Its number.
impl From<NodeStatus> for u8 {
    ghost from_gives = { λ s n. n ≡ status_number s };

    fn from(status: NodeStatus) -> u8
        ensures { result ≡ status_number status }
    {
        match status {
            NodeStatus::Accepted => 0,
            NodeStatus::Rejected => 1,
            NodeStatus::InvalidNode => 2,
        }
    }
}

// A field of a record: where it stands, and how long it is.
#[derive(Clone, Copy)]
pub struct Field {
    pub at: usize,
    pub size: usize,
}

// The fields of a record that commands write and tell.
pub const TYPE: Field = Field { at: 1, size: 2 };

pub const NAME: Field = Field { at: 3, size: 64 };

pub const ORDER: Field = Field { at: 67, size: 2 };

pub const PLACEMENT: Field = Field { at: 69, size: 1 };

pub const ORDER_AND_PLACEMENT: Field = Field { at: 67, size: 3 };

pub const VARIATION: Field = Field { at: 70, size: 1 };
