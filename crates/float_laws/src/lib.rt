// Laws of the doubles' order and rounding, for the proofs of other crates.

#![tactic(auto)]
