// Bytes on a line: the call's refusals, the frame that they end, its request answered and done (document 01, "Feed takes a line, bytes and
// reply room", "The command directory", "What the commands do"). `call` and `call_in` promise the definition's call in every part (crate rules,
// specs/Promises.antt: Feeds). What is answered is decided first, with nothing changed; then it is written, if there is room for it; then hub,
// table and record are changed. It stands on the reader of frames, the directory, the node table, the sessions, the replies and the hub's rules.
#![tactic(auto)]

mod decide;
mod effects;
mod feed;

pub use feed::{call, call_in};
