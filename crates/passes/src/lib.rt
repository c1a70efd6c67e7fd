// What passes over the rows of a bundle do to its pairs: cleared, and raised row by row until nothing is left to raise. Definitions and laws only.

#![tactic(auto)]
