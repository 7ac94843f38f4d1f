// How many words must be ahead (02, item 2): when the words of a command are taken, and what a host of a given pace needs; no code.

#![tactic(auto)]
