// Laws of a selection: what a call that is not refused may count on, and that picks look at the pool's plans only.

#![tactic(auto)]
