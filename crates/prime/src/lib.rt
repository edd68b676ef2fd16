// The prime 32749: definitions and laws of arithmetic by it, and no code.
#![tactic(auto)]
