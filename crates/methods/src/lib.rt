// The public methods of a line, and the dispatcher of a card, take the steps of the theorems about lists. It has no
// code: specs/ states it, and proofs/ proves it of the crates line, lent and dispatcher.
#![tactic(auto)]
