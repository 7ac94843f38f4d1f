// Theorems alone: specs/BadWord.antt says what register 11 shows of the line (02 item 4), proofs/ proves it.

#![tactic(auto)]
