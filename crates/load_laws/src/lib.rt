// Laws of a trial load: every value drawn has a form, the file reads back as the plans drawn, `choose` takes it, and what the call that writes it owes follows. No code.

#![tactic(auto)]
