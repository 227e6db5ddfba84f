// Laws of the generator's state so many words on: by steps doubled, and 2^64 words on as it was. No code.

#![tactic(auto)]
