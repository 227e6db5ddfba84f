// Laws of the session property: opening gives it, every call keeps it, refused or not. Definitions and proofs only.

#![tactic(auto)]
