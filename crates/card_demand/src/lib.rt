// R-4 and R-5 about every list of calls on a card. It has no code: specs/ states it, and proofs/ proves it of lines,
// dispatcher and group.
#![tactic(auto)]
