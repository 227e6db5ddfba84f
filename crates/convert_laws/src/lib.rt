// Laws of the converter between the two editions of the pool file: what is read is written so, there and back again, and the promise of the call. No code.

#![tactic(auto)]
