// Laws of the float leaves: no code.

#![tactic(auto)]
