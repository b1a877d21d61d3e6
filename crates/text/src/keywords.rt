// Fields that are keywords: operators and senses.
ghost use Rattle.std.specs.Prelude.{◌≡◌};
ghost use Rattle.arith.specs.Options.{told};
ghost use Rattle.text.specs.Forms.{operator, sense};

use peal::{Operator, Sense};

// `min`, `max`, `sum` or `mul`.
#[tactic(auto, using(crate::proofs::WordLaws::words), unfolding(crate::specs::Forms::operator, crate::specs::Forms::operator_word))]
pub fn read_operator(field: &[u8]) -> Option<Operator>
    ensures { told result ≡ operator field.now }
{
    match field {
        b"min" => Some(Operator::Min),
        b"max" => Some(Operator::Max),
        b"sum" => Some(Operator::Sum),
        b"mul" => Some(Operator::Mul),
        _ => None,
    }
}

// `<` or `>=`.
#[tactic(auto, using(crate::proofs::WordLaws::words), unfolding(crate::specs::Forms::sense, crate::specs::Forms::sense_word))]
pub fn read_sense(field: &[u8]) -> Option<Sense>
    ensures { told result ≡ sense field.now }
{
    match field {
        b"<" => Some(Sense::Above),
        b">=" => Some(Sense::AtMost),
        _ => None,
    }
}
