// The three demands in one place: `specs/Demands.antt` states them, `proofs/Demands.antt` cites what proves each.

#![tactic(auto)]
