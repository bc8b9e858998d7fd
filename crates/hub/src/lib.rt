// The hub: the host's calls, and feed and close on a line's record, lent or by value (document 01, "What the commands do").
// Each call promises the rule's answer, hub, table, record and every byte of the room, refusals included: crate rules, specs/Promises.antt.
// It stands on the frame layer, on the node table and the sessions, and on the requests.
#![tactic(auto)]

mod by_value;
mod closing;
mod host;
mod lent;

pub use by_value::{close_by_value, feed_by_value, feed_in};
pub use host::{enrol, finish, first, start};
pub use lent::{close, feed};
