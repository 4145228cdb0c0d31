// Reading what the writer of PAM pictures wrote: no code. specs/Claim.antt states the theorem, proofs/Theorem.antt proves it.
#![tactic(auto)]
