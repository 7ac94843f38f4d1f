// Forty due, forty shown (02, item 13): what is promised of the board and of a shift, and no code.

#![tactic(auto)]
