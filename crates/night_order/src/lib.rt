// A night's list read by demand 3, and nights one after the other: theorems over `whole_night::night`, and no code.

#![tactic(auto)]
