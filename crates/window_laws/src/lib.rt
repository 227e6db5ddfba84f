// No code: what a session with a window has for its ideal over a whole run (document 02, M-109). The definitions of `model` are what is spoken of.

#![tactic(auto)]
