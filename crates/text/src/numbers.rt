// Fields that are numbers.
ghost use Rattle.std.specs.Prelude.{◌≡◌};
ghost use Rattle.arith.specs.Options.{told};
ghost use Rattle.text.specs.Numbers.{no_leading_zero, natural, number};

use super::bytes::is_digit;

// The most digits that a number may have.
const MOST_DIGITS: usize = 6;

// 0 stands first only where it is the only digit.
#[tactic(auto, using(std::proofs::lemmas::Bool::Decides::nat_tests, crate::proofs::NumberLaws::lead_is))]
fn no_leading_zero(field: &[u8]) -> bool
    ensures { result ≡ no_leading_zero field.now }
{
    !matches!(field, [b'0', _, ..])
}

// One to six digits, no leading zero.
#[tactic(auto, using(crate::proofs::NumberLaws::digits), unfolding(crate::specs::Numbers::natural))]
pub fn read_natural(field: &[u8]) -> Option<u32>
    ensures { told result ≡ natural field.now }
{
    if field.is_empty() || MOST_DIGITS < field.len() || !no_leading_zero(field) {
        return None;
    }
    let mut value = 0;
    for byte in field {
        if !is_digit(*byte) {
            return None;
        }
        value = value * 10 + u32::from(*byte - b'0');
    }
    Some(value)
}

// An optional `-`, then a number without a sign; no -0.
#[tactic(auto, using(crate::proofs::NumberLaws::numbers), unfolding(crate::specs::Numbers::negated))]
pub fn read_number(field: &[u8]) -> Option<i32>
    ensures { told result ≡ number field.now }
{
    let [b'-', digits @ ..] = field else {
        return Some(read_natural(field)? as i32);
    };
    let size = read_natural(digits)?;
    if size == 0 {
        None
    } else {
        Some(-(size as i32))
    }
}
