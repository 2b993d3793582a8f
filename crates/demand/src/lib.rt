// Demand 3 about every list of calls on a line. It has no code: specs/ states it, and proofs/ proves it of the crate
// line.
#![tactic(auto)]
