// Conditions as they are kept.
ghost use Rattle.std.specs.Prelude.{◌≡◌, ◌+◌, ◌*◌, ◌≤◌, length, take};
ghost use Rattle.peal.specs.Policies.{Condition as PealCondition};
ghost use Rattle.text.specs.Codes.{code_cells, codes_of, expression_of, AreCodes};
ghost use Rattle.book.specs.SoFar.{condition_of, SmallCode, CanKeep};
ghost use Rattle.std.specs.Coded.{codes as known_codes};
ghost use Rattle.text.proofs.CodedExpressions.{coded_expression};

use std::alloc::AllocError;
use std::marker::Model;
use text::{CODE_COUNT, Code};

// The codes of a condition as they are kept: they mention policies of a book alone, whose numbers are small.
type KeptCodes = [Code<u8>; CODE_COUNT];

// A condition of an accepted book, or of a book so far: a clause sees the condition of document 01.
// It has one mention more than joins, so the joins tell how many codes there are. All bits of a blank one are zero: one
// `memset` makes a blank book.
#[derive(Drop)]
pub struct Condition {
    sense: peal::Sense,
    threshold: i32,
    codes: KeptCodes,
    joins: usize,
}

impl Model for Condition {
    ghost Value = { PealCondition };

    ghost coded = { Prim.hlevel (known_codes, coded_expression) };

    ghost view = { λ c. record {
      sense = c.sense;
      threshold = c.threshold;
      expression = expression_of (take (2 * c.joins + 1) c.codes);
    } };

    ghost invariant = { λ c. (2 * c.joins + 1 ≤ code_cells) × AreCodes (take (2 * c.joins + 1) c.codes) };
}

// Written out, so that a clone is said to be what it was made of.
impl Clone for Condition {
    ghost use Rattle.std.specs.Prelude.{◌≡◌, ⊤};

    ghost is_clone = { λ c d. d ≡ c };

    ghost is_infallible = { λ _. ⊤ };

    fn clone(&self) -> Result<Condition, AllocError> {
        Ok(Condition {
            sense: self.sense,
            threshold: self.threshold,
            codes: self.codes,
            joins: self.joins,
        })
    }
}

impl Default for Condition {
    fn default() -> Condition {
        Condition {
            sense: peal::Sense::Above,
            threshold: 0,
            codes: [Code::Policy(0); CODE_COUNT],
            joins: 0,
        }
    }
}

impl Condition {
    // The codes are those of the expression.
    pub(crate) fn new(sense: peal::Sense, threshold: i32, codes: &[Code<u32>]) -> Condition
        requires kept { CanKeep codes.now }
        requires are { AreCodes codes.now }
        ensures { result ≡ condition_of sense threshold codes.now }
    {
        Condition {
            sense,
            threshold,
            codes: kept_codes(codes),
            joins: codes.len() / 2,
        }
    }

    pub fn sense(&self) -> peal::Sense
        ensures { result ≡ self.now.sense }
    {
        self.sense
    }

    pub fn threshold(&self) -> i32
        ensures { result ≡ self.now.threshold }
    {
        self.threshold
    }

    // The codes of the expression.
    pub fn codes(&self) -> &[Code<u8>]
        ensures { result.now ≡ codes_of self.now.expression }
    {
        &self.codes[..2 * self.joins + 1]
    }
}

// A code with its number as it is kept.
fn kept_code(code: Code<u32>) -> Code<u8>
    requires { SmallCode code }
    ensures { result ≡ code }
{
    match code {
        Code::Min => Code::Min,
        Code::Max => Code::Max,
        Code::Policy(k) => Code::Policy(k as u8),
    }
}

// The codes that were read, as they are kept.
fn kept_codes(codes: &[Code<u32>]) -> KeptCodes
    requires { CanKeep codes.now }
    ensures { take (length codes.now) result ≡ codes.now }
{
    let mut kept = [Code::Policy(0); CODE_COUNT];
    for (i, code) in codes.iter().enumerate() {
        kept[i] = kept_code(*code);
    }
    kept
}
