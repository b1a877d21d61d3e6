// What a condition becomes in a listing, as definitions and theorems for the crates above. There is no code.
#![tactic(auto)]
