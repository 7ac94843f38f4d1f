// That the bridge finds the frames which the host's side writes, and that its answers read back (02, item 1): theorems over the bridge's rules, and no code.

#![tactic(auto)]
