// What the gate writes: accepted, and of what was given. Statements in specs/, proofs in proofs/; no code.

#![tactic(auto)]
