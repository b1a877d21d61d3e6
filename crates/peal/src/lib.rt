// The published language: the operators of policies and the senses of conditions. For the crates above, by which scores
// an operator ranks, and the operator over two scores.
#![tactic(auto)]

ghost use Rattle.std.specs.Prelude.{◌≡◌, ◌^◌, ◌≤◌};
ghost use Rattle.std.specs.Int.Signed.{mag};
ghost use Rattle.peal.specs.Combining.{combined_of};
ghost use Rattle.peal.specs.Ranking.{rises as rises_of};

// How a policy combines the scores of its rules: `sum` is Peal's +, `mul` its *.
#[derive(Clone, Copy, Default, PartialEq, Eq)]
pub enum Operator {
    #[default]
    Min,
    Max,
    Sum,
    Mul,
}

// What a condition asks of the score: to be above the threshold (`c T < E`) or at most the threshold (`c T >= E`).
#[derive(Clone, Copy, Default, PartialEq, Eq)]
pub enum Sense {
    #[default]
    Above,
    AtMost,
}

// A rule of a policy: where the signal is present, the score counts. `r S V` in a book.
#[derive(Clone, Copy, Default, PartialEq, Eq)]
pub struct Rule {
    pub signal: u32,
    pub score: i32,
}

// Two signals that never occur together, as read. `x A B` in a book.
#[derive(Clone, Copy, Default, PartialEq, Eq)]
pub struct Exclusion {
    pub first: u32,
    pub second: u32,
}

// Ranks go by rising score in sum and max, by falling score in mul and min.
pub fn rises(o: Operator) -> bool
    ensures { result ≡ rises_of o }
{
    match o {
        Operator::Sum => true,
        Operator::Max => true,
        Operator::Mul => false,
        Operator::Min => false,
    }
}

// The operator over two scores; in mul the bare product. For the crates above only, which have scores in range: the
// result fits.
pub fn combined(o: Operator, v: i64, w: i64) -> i64
    requires { mag (combined_of o v w) ≤ 10 ^ 16 }
    ensures { result ≡ combined_of o v w }
{
    match o {
        Operator::Min => v.min(w),
        Operator::Max => v.max(w),
        Operator::Sum => v + w,
        Operator::Mul => v * w,
    }
}
