// The theorem about every list of a group's calls: no code. specs/Claim.antt states it, proofs/Theorem.antt proves it.
#![tactic(auto)]
