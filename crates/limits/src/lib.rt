// The limits and ranges of a book, each a test of its own: every call takes every number.
#![tactic(auto)]

ghost use Rattle.std.proofs.Math.Option.{some};
ghost use Rattle.std.specs.Prelude.{◌≡◌};
ghost use Rattle.limits.specs.Limits.{book_fits, line_fits, room_for_policy, room_for_condition, room_for_rule, room_for_exclusion, signal_in_range, exclusion_in_range, within as within_of, default_in_range, score_in_range, threshold_in_range};

const MOST_BOOK_BYTES: usize = 8192;

const MOST_LINE_BYTES: usize = 128;

pub const MOST_POLICIES: usize = 16;

pub const MOST_CONDITIONS: usize = 8;

const MOST_MUL_RULES: usize = 8;

pub const MOST_EXCLUSIONS: usize = 16;

const LAST_SIGNAL: u32 = 15;

const LEAST_DEFAULT: i32 = -10000;

const MOST_DEFAULT: i32 = 10000;

const LEAST_SCORE: i32 = -10000;

const MOST_SCORE: i32 = 10000;

const MOST_MUL_SCORE: i32 = 100;

const LEAST_THRESHOLD: i32 = -200000;

const MOST_THRESHOLD: i32 = 200000;

// Tests that differ in a constant stay apart: each is one comparison, and a helper with a const parameter would be longer.

// A book may have n bytes.
pub fn book_fits(n: usize) -> bool
    ensures { result ≡ book_fits n }
{
    n <= MOST_BOOK_BYTES
}

// A line may have n bytes before its end.
pub fn line_fits(n: usize) -> bool
    ensures { result ≡ line_fits n }
{
    n <= MOST_LINE_BYTES
}

// A book of n policies has room for one more.
pub fn room_for_policy(n: usize) -> bool
    ensures { result ≡ room_for_policy n }
{
    n < MOST_POLICIES
}

// A book of n conditions has room for one more.
pub fn room_for_condition(n: usize) -> bool
    ensures { result ≡ room_for_condition n }
{
    n < MOST_CONDITIONS
}

// A policy of n rules has room for one more.
pub fn room_for_rule(o: peal::Operator, n: usize) -> bool
    ensures { result ≡ room_for_rule o n }
{
    match o {
        peal::Operator::Mul => n < MOST_MUL_RULES,
        _ => true,
    }
}

// A book of n exclusions has room for one more.
pub fn room_for_exclusion(n: usize) -> bool
    ensures { result ≡ room_for_exclusion n }
{
    n < MOST_EXCLUSIONS
}

pub fn signal_in_range(s: u32) -> bool
    ensures { result ≡ signal_in_range s }
{
    s <= LAST_SIGNAL
}

// An exclusion may have the signals a and b.
pub fn exclusion_in_range(a: u32, b: u32) -> bool
    ensures { result ≡ exclusion_in_range a b }
{
    signal_in_range(a) && signal_in_range(b) && a != b
}

// z is low to high.
fn within(low: i32, high: i32, z: i32) -> bool
    ensures { result ≡ within_of low high z }
{
    low <= z && z <= high
}

pub fn default_in_range(d: i32) -> bool
    ensures { result ≡ default_in_range (some d) }
{
    within(LEAST_DEFAULT, MOST_DEFAULT, d)
}

// A rule of a policy of this operator may have the score v.
pub fn score_in_range(o: peal::Operator, v: i32) -> bool
    ensures { result ≡ score_in_range o v }
{
    match o {
        peal::Operator::Min => within(LEAST_SCORE, MOST_SCORE, v),
        peal::Operator::Max => within(LEAST_SCORE, MOST_SCORE, v),
        peal::Operator::Sum => within(0, MOST_SCORE, v),
        peal::Operator::Mul => within(0, MOST_MUL_SCORE, v),
    }
}

pub fn threshold_in_range(t: i32) -> bool
    ensures { result ≡ threshold_in_range t }
{
    within(LEAST_THRESHOLD, MOST_THRESHOLD, t)
}
