// Runs of accepted bundles, and what each slip would let through, by computation: see proofs/. This crate has no code of its own.

#![tactic(auto)]
