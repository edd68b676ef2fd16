// P1 to P12 as one proved table, and a worked case of renewal: the statements in specs/, their proofs in proofs/, and no function.
#![tactic(auto)]
