// Laws of roots in order: no code.

#![tactic(auto)]
