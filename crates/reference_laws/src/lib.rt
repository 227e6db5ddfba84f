// Laws of the reference table and of its divisions: no code.

#![tactic(auto)]
