// What each operation of the unit means, and the theorem Recovery. There is no code: the definitions stand in specs/, the proofs in proofs/.
#![tactic(auto)]
