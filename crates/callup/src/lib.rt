// A call-up as events of the bridge (02, item 13): theorems over runs, and no code.

#![tactic(auto)]
