// What the C names promise (specs/Coded.antt), and its laws: each follows from what the public call promises.

#![tactic(auto)]
