// Laws of the fronts alone: no code.

#![tactic(auto)]
