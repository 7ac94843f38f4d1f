// What goes out on the line comes back: theorems over runs, and no code.

#![tactic(auto)]
