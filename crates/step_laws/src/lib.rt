// Laws of Floats on a step (document 02, M-103): what is drawn or moved is a value that could be drawn, and within its bounds. No code.

#![tactic(auto)]
