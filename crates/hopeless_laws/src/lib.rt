// Laws of what rows of infeasible plans do not change (document 02, M-112): no code.

#![tactic(auto)]
