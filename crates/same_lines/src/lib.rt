// Same lines, same policy: what the lines of two compiled policies tell of their decisions, as theorems. There is no
// code.
#![tactic(auto)]
