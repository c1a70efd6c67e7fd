// The choices of pairs that a bundle has, and the least that the verifier accepts. Definitions and laws only.

#![tactic(auto)]
