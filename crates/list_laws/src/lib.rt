// Laws that every layer uses: of model's `Lists`, of draws in turn, of stores into a slice, and of the refusals' order. No code.

#![tactic(auto)]
