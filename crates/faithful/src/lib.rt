// That what is written does what was read is a theorem: see proofs/. This crate has no code of its own.

#![tactic(auto)]
