// Laws of the pool file's form: what is written is read. No code.

#![tactic(auto)]
