// Document 02, M-102: what the plane is for, as theorems of its definitions.

#![tactic(auto)]
