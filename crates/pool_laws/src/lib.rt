// Laws of the pool file: its shortest forms, the selection that its words ask for, and the length of a listing.

#![tactic(auto)]
