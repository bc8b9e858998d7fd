// The three demands, proved of the hub's rules and of every list of calls that keep their promises (documents 00 and 01).
// It has no code: specs/Demands.antt, proofs/Demands.antt and proofs/Demand3.antt state them, of the lists of calls of specs/Steps.antt and
// specs/FeedLists.antt; proofs/Demand3Example.antt computes one list of feeds.
// It stands on the hub's rules, and on what the line layer, the frame layer and the lists of feeds state.
#![tactic(auto)]
