// The slots of a tariff as the paper gives them. It has no code: specs/ states them, and proofs/ shows that the crate
// steps follows them.
#![tactic(auto)]
