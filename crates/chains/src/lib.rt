// How many groups there can be of which none lies inside another (SCOPE 2.2): definitions and proofs, and no code.
#![tactic(auto)]
