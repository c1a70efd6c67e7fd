// The cases of document 01 that are marked P are a theorem: see proofs/. This crate has no code of its own.

#![tactic(auto)]
