// The score of a policy on a signal set.
ghost use Rattle.std.specs.Prelude.{◌≡◌, ◌^◌, ◌≤◌, ◌<◌};
ghost use Rattle.std.specs.Int.Signed.{mag};
ghost use Rattle.arith.specs.Options.{told};
ghost use Rattle.peal.specs.Score.{present_rules, policy_score};
ghost use Rattle.book.specs.Ranges.{PolicyInRange};
ghost use Rattle.score.specs.Pairs.{Is};
ghost use Rattle.score.specs.PolicyScores.{rule_score, present_of, with_score};

use crate::exact::{Exact, of_product, whole};

// What the rule adds on the set: its score, where its signal is present.
fn rule_score(rule: peal::Rule, set: u16) -> Option<i64>
    requires { rule.signal < 16 }
    ensures { told result ≡ rule_score set rule }
{
    signals::is_present(set, rule.signal).then_some(i64::from(rule.score))
}

// The rules present so far: how many, and the operator over their scores; the default while there are none.
#[derive(Clone, Copy)]
struct Present {
    count: u32,
    value: i64,
}

// One present rule more.
fn with_score(operator: peal::Operator, earlier: Present, score: i64) -> Present
    requires { (earlier.count < 16) × (mag (with_score operator earlier score).value ≤ 10 ^ 16) }
    ensures { result ≡ with_score operator earlier score }
{
    let value = match earlier.count {
        0 => score,
        _ => peal::combined(operator, score, earlier.value),
    };
    Present {
        count: earlier.count + 1,
        value,
    }
}

// The rules of the policy that are present, taken from the last to the first. The policy is in range.
fn present_rules(policy: &book::Policy, set: u16) -> Present
    ensures counted { result ≡ present_of policy.now (present_rules set policy.now.rules) }
    ensures range { PolicyInRange policy.now }
{
    let operator = policy.operator();
    let mut present = Present {
        count: 0,
        value: i64::from(policy.default_score()),
    };
    for rule in policy.rules().iter().rev() {
        if let Some(score) = rule_score(*rule, set) {
            present = with_score(operator, present, score);
        }
    }
    present
}

// The score of the policy: with no rule present the default, otherwise the operator over the present rules alone.
pub fn policy_score(policy: &book::Policy, set: u16) -> Exact
    ensures { Is result (policy_score set policy.now) }
{
    let present = present_rules(policy, set);
    match policy.operator() {
        peal::Operator::Mul if 0 < present.count => of_product(present.value as u64, present.count),
        _ => whole(present.value),
    }
}
