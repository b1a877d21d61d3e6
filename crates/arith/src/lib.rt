// Lists, trees and signed numbers, as definitions and laws for the crates above. There is no code.
#![tactic(auto)]
