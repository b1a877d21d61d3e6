// The plan: what the search asks again and again, worked out once for a policy and a threshold, and lent to it.
// For this crate only: no other can name these functions, and each call is proved to meet its condition.
ghost use Rattle.std.specs.Prelude.{◌≡◌, ◌^◌, ◌≤◌};
ghost use Rattle.std.specs.Int.Signed.{mag};
ghost use Rattle.compiler.specs.Worth.{initial as initial_of, clamped as clamped_of, limit_of, NextLimit};
ghost use Rattle.compiler.specs.Planning.{ThresholdFits, in_rank_order, PlanFor};

use arrayvec::ArrayVec;

// What the plan has for a number of rules.
#[derive(Clone, Copy, Default)]
pub struct Row {
    // The limit of the sets of so many rules.
    pub limit: i64,
    // The operator over so many rules of lowest rank, and the score and the bit of the first of these.
    pub rest: i64,
    pub score: i64,
    pub bit: u32,
}

// A row for each number of rules, none too.
const ROWS: usize = book::MOST_RULES + 1;

#[derive(Drop)]
pub struct Plan {
    pub operator: peal::Operator,
    pub rows: ArrayVec<Row, ROWS>,
}

// Beyond every threshold, on either side.
const BELOW_ALL: i64 = -200001;

const ABOVE_ALL: i64 = 200001;

// A score of one unit, in hundredths.
pub const UNIT: i64 = 100;

// The threshold, but at least -1 and at most one unit.
fn clamped(threshold: i32) -> i64
    ensures { result ≡ clamped_of threshold }
{
    (threshold as i64).clamp(-1, UNIT)
}

// The limit for no rule, from which the others are made: the search tries no set without a rule.
fn first_limit(operator: peal::Operator, threshold: i32) -> i64
    ensures { result ≡ limit_of operator threshold 0 }
{
    if let peal::Operator::Mul = operator {
        return clamped(threshold);
    }
    threshold as i64
}

// The limit of a set of one rule more.
fn next_limit(operator: peal::Operator, limit: i64) -> i64
    requires { mag limit ≤ 10 ^ 16 }
    ensures { NextLimit operator limit result }
{
    if let peal::Operator::Mul = operator {
        return limit * UNIT;
    }
    limit
}

// The operator over no score.
pub fn initial(operator: peal::Operator) -> i64
    ensures { result ≡ initial_of operator }
{
    match operator {
        peal::Operator::Sum => 0,
        peal::Operator::Mul => 1,
        peal::Operator::Max => BELOW_ALL,
        peal::Operator::Min => ABOVE_ALL,
    }
}

// The plan of a policy, with its rules in falling rank. That the threshold is in range is a clause here and above, since a number
// has no type that says it.
pub fn planned(policy: &book::Policy, threshold: i32) -> Plan
    requires { ThresholdFits threshold }
    ensures { PlanFor result (in_rank_order policy.now) threshold }
{
    let operator = policy.operator();
    let count = policy.rules().len();
    let rules = ranking::in_rank_order(operator, policy.rules());
    // Of no rules there is no first: its score and its bit are 0.
    let mut row = Row {
        limit: first_limit(operator, threshold),
        rest: initial(operator),
        score: 0,
        bit: 0,
    };
    let mut rows = ArrayVec::new();
    rows.push(row);
    for i in (0..count).rev() {
        let rule = rules[i];
        let score = rule.score as i64;
        row = Row {
            limit: next_limit(operator, row.limit),
            rest: peal::combined(operator, score, row.rest),
            score,
            bit: signals::bit(rule.signal),
        };
        rows.push(row);
    }
    Plan { operator, rows }
}
