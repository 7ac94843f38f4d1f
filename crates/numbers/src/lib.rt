// 01 Numbers on both sides: specs/Numbers.antt is the table of its P rows, proofs/Table.antt the theorem about it.

#![tactic(auto)]
