// Laws of the generation step: its refusals, its limits, what is bred, and its promise.

#![tactic(auto)]
