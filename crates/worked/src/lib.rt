// The worked cases of document 01, as theorems about the definitions. There is no code.
#![tactic(auto)]
