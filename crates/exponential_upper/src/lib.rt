// The upper half of a block's exponential: specs/Upper.antt defines it, proofs/ shows that it is the definition's own.
#![tactic(auto)]
