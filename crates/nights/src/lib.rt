// A night of events and call-ups (02, item 13): theorems over runs, and no code.

#![tactic(auto)]
