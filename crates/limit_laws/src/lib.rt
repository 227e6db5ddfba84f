// Laws of the greatest number of settings and dimensions: no code.

#![tactic(auto)]
