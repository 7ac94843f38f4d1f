// The vocabulary that every definition and proof cites. It has no code: see specs/.

#![tactic(auto)]
