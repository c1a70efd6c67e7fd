// The promise of a lock order is a theorem: see proofs/. This crate has no code of its own.

#![tactic(auto)]
