// Laws of the pool that a session breeds from: plans' words one after the other, the children that do not wait, and those kept. No code.

#![tactic(auto)]
