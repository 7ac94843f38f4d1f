// Demand 3: theorems over runs of the bridge, and no code.

#![tactic(auto)]
