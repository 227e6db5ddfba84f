// Laws of where the two editions' distances part (document 02, M-105): no code.

#![tactic(auto)]
