// Document 01's bench values M1 to M13. There is no code: the table stands in specs/, its proof in proofs/.
#![tactic(auto)]
