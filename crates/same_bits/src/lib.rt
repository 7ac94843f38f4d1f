// The line's bits are those that 01's one place a command gave (02 item 3): specs/SameBits.antt says it, proofs/ proves it. There is no code here.

#![tactic(auto)]
