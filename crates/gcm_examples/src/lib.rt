// Worked examples of GCM's authors, computed from the definitions. There is no code: they stand in proofs/.
#![tactic(auto)]
