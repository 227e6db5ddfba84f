// No code: hopeless plans leave what a session with a window remembers as it is (document 02, M-112). The definitions of `model` are what is spoken of.

#![tactic(auto)]
