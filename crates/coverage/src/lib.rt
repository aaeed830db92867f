#![tactic(auto)]

// Demand 3: every byte of a span has one owner. There is no code here: the statement stands in specs/Demand3.antt, the proof in proofs/.
