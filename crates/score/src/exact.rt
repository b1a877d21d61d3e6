// Exact scores: nothing is rounded, and scores are compared as they are.
ghost use Rattle.std.specs.Prelude.{◌≡◌, ◌-◌, ◌^◌, ◌≤◌, pos, ◌*ℤ◌, Some};
ghost use Rattle.peal.specs.Score.{scaled, meets as meets_of};
ghost use Rattle.score.specs.Pairs.{Is, ForScore};
ghost use Rattle.score.specs.Pairs.{exact_text};

use std::fmt;

// A score: hundredths, and a remainder in parts, of which a hundredth has 10 to the 14. The derived order is that of the
// scores: by the hundredths, then by the remainder.
#[derive(Clone, Copy, Default, PartialEq, Eq, PartialOrd, Ord)]
pub struct Exact {
    pub hundredths: i64,
    pub remainder: u64,
}

impl fmt::Display for Exact {
    ghost output = { λ exact. Some (exact_text exact) };

    fn fmt<W: fmt::Write>(&self, f: &mut fmt::Formatter<W>) -> fmt::Result {
        write!(f, "score {} {}", self.hundredths, self.remainder)
    }
}

// A hundredth, in parts.
const HUNDREDTH: u64 = 100000000000000;

// A unit, in hundredths.
const UNIT: u64 = 100;

// So many scores are multiplied at most; the parts are those of a product of so many.
const MOST_FACTORS: u32 = 8;

// A score without a remainder.
pub fn whole(hundredths: i64) -> Exact
    ensures { Is result (scaled hundredths) }
{
    Exact {
        hundredths,
        remainder: 0,
    }
}

// The product of `count` scores in units; at most eight scores of at most 100 hundredths each.
pub fn of_product(product: u64, count: u32) -> Exact
    requires { (product ≤ 100 ^ count) × (count ≤ 8) }
    ensures { Is result (pos product *ℤ pos (100 ^ (8 - count))) }
{
    let parts = product * UNIT.pow(MOST_FACTORS - count);
    Exact {
        hundredths: (parts / HUNDREDTH) as i64,
        remainder: parts % HUNDREDTH,
    }
}

// The score meets the condition.
pub fn meets(sense: peal::Sense, threshold: i32, score: Exact) -> bool
    ensures { ForScore score (λ v. result ≡ meets_of sense threshold v) }
{
    let limit = whole(i64::from(threshold));
    match sense {
        peal::Sense::Above => limit < score,
        peal::Sense::AtMost => score <= limit,
    }
}
