// The customer's demands as theorems over the rooms below: statements in specs/, proofs in proofs/, and no function.
#![tactic(auto)]
