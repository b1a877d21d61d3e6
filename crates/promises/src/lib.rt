// Every promise that is a theorem, stated in one place and proved by citing its law. There is no code.
#![tactic(auto)]
