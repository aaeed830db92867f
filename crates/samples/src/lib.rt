#![tactic(auto)]

// Document 01's marked samples: the table is in specs/Samples.antt, its theorem in proofs/Samples.antt. There is no code here.
