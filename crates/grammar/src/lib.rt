// The texts that controllers send, and what each asks for. It has no code: specs/ states it, and proofs/ shows that a
// text reads in one way only.
#![tactic(auto)]
