// Laws of whole candidates: every setting lies within its dimension's bounds, words hand candidates back, and what breeding hands to R lies within 0..2^51.

#![tactic(auto)]
