#![tactic(auto)]

// The marks of the strict reading pair. There is no code here: the statement stands in specs/Strict.antt, the proof in proofs/.
