// Laws of what the arrays of niching hold; no code.

#![tactic(auto)]
