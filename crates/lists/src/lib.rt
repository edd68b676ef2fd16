// Lists and places: definitions and laws for all rooms, and no code.
#![tactic(auto)]
