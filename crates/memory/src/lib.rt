// Lent bytes: looked at, compared, stored. Each call answers, or leaves the memory, as the definition says: specs/Octets.antt for
// what is looked at, the library's `sets` for what is stored (specs/Wrote.antt has runs of it).
// It stands on nothing.
#![tactic(auto)]

mod octets;
mod store;

pub use octets::{byte, is_same};
pub use store::{copy, fill};
