// What types promise of code's parameters, as facts of values: the numbers of a dimension, of `Operators` and of a session's are such as the machine
// holds. Proofs only.

#![tactic(auto)]
