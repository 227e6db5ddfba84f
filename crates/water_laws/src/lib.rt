// Laws of water priced by band: litre by litre and band by band, more litres never cost less, and how much any of it can be. No code.

#![tactic(auto)]
