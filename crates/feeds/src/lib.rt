// Lists of feeds over any hub, and demand 3 for them (document 00).
// It has no code: specs/System.antt says what one call and a list of feeds are, specs/Service.antt what a call promises of lent memory,
// specs/Demand3.antt states demand 3, proofs/Demand3.antt proves it. It stands on what the line and the frame layer state.
#![tactic(auto)]
