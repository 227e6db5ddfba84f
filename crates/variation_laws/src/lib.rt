// Laws alone: children and mutants of settings within bounds are within bounds.

#![tactic(auto)]
