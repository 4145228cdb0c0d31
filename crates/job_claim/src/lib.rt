// Demand 3, the theorem about every list of calls: no code. specs/Claim.antt states it, proofs/Theorem.antt proves it.
#![tactic(auto)]
