// What calls return, as a definition, and what a refusal says of itself. For the crates above.
#![tactic(auto)]

ghost use Rattle.std.specs.Prelude.{ℕ, ◌≡◌, ◌<◌};

// Why a call refused: its number in document 01's table, and the line, the record or 0 beside it.
pub trait Refusal {
    ghost number_of: { Self → ℕ };

    ghost value_of: { Self → ℕ };

    fn number(&self) -> u64
        ensures { result ≡ number_of self.now };

    fn value(&self) -> u64
        ensures { result ≡ value_of self.now };

    // So a number fits the five bits that a call for C has for it, also as a second listing's, which is 16 higher.
    ghost few: { (refusal : Self) → number_of refusal < 16 };
}
