// Theorems only: see proofs/. This crate has no code of its own.

#![tactic(auto)]
