// Demand 3: what is proved of the kept list of every selection from a pool of at least the size wanted; and that association and niching of an accepted
// selection are the paper's. Definitions and proofs only.

#![tactic(auto)]
