// Demand 3 is a theorem: see proofs/. This crate has no code of its own.

#![tactic(auto)]
