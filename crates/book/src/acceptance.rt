// The acceptance of a line that has a form, in the order 3 to 6.
// For this crate only: no other can name these functions, and each call is proved to meet its condition.
#![tactic(auto, using(crate::proofs::JudgeLaws::present_signal, crate::proofs::JudgeLaws::mentions_all), unfolding(crate::specs::Acceptance::accept, crate::specs::Acceptance::in_place, crate::specs::Acceptance::in_count, crate::specs::Acceptance::in_range, crate::specs::Acceptance::is_new, crate::specs::Judged::with_line))]

ghost use Rattle.std.specs.Prelude.{◌≡◌};
ghost use Rattle.arith.specs.Lists.{exists};
ghost use Rattle.std.specs.List.{list_all};
ghost use Rattle.peal.specs.declared.Operator.{Operator};
ghost use Rattle.peal.specs.declared.Sense.{Sense};
ghost use Rattle.text.specs.Codes.{expression_of, AreCodes};
ghost use Rattle.text.specs.Forms.{policy, rule as rule_form, exclusion as exclusion_form, condition};
ghost use Rattle.std.proofs.Math.Option.{some};
ghost use Rattle.book.specs.Acceptance.{excludes};
ghost use Rattle.book.specs.SoFar.{Bounded, so_far_of};
ghost use Rattle.book.specs.Judged.{code_below, Judged, JudgedBy};

use crate::Reason;
use crate::books::Book;
use text::Code;

// What the lines so far leave for the next one, beside the book: whether the line above is a `p` or an `r`, and whether
// the first line is an `o`.
// Two marks by value, not one struct with the book: what goes in and comes out stays in registers (docs/DECISIONS.md, D34).
#[derive(Clone, Copy)]
pub struct SoFar {
    pub in_rules: bool,
    pub old_zero: bool,
}

// A join, or one of the first so many policies.
fn is_below(code: Code<u32>, policies: usize) -> bool
    ensures { result ≡ code_below policies code }
{
    match code {
        Code::Policy(k) => (k as usize) < policies,
        _ => true,
    }
}

// Each policy that these codes mention is one of the first so many.
fn mentions_below(codes: &[Code<u32>], policies: usize) -> bool
    ensures { result ≡ list_all (code_below policies) codes.now }
{
    codes.iter().all(|code| is_below(*code, policies))
}

// One of the exclusions has the same two signals, in either order.
fn has_exclusion(exclusions: &[peal::Exclusion], new: peal::Exclusion) -> bool
    ensures { result ≡ exists (excludes new.first new.second) exclusions.now }
{
    let turned = peal::Exclusion {
        first: new.second,
        second: new.first,
    };
    exclusions.contains(&new) || exclusions.contains(&turned)
}

pub fn judge_policy(book: &Book, default: i32) -> Result<(), Reason>
    ensures { (o : Operator) → JudgedBy book.now (policy o (some default)) result }
{
    if !book.conditions().is_empty() {
        return Err(Reason::OutOfPlace);
    }
    if !limits::room_for_policy(book.policies().len()) {
        return Err(Reason::TooMany);
    }
    if !limits::default_in_range(default) {
        return Err(Reason::OutOfRange);
    }
    Ok(())
}

pub fn judge_rule(book: &Book, state: SoFar, rule: peal::Rule) -> Result<(), Reason>
    requires { Bounded (so_far_of book.now state) }
    ensures { Judged (so_far_of book.now state) (rule_form rule.signal rule.score) result }
{
    if !state.in_rules {
        return Err(Reason::OutOfPlace);
    }
    let policy = book.last_policy();
    let operator = policy.operator();
    if !limits::room_for_rule(operator, policy.rules().len()) {
        return Err(Reason::TooMany);
    }
    if !limits::signal_in_range(rule.signal) {
        return Err(Reason::OutOfRange);
    }
    if !limits::score_in_range(operator, rule.score) {
        return Err(Reason::OutOfRange);
    }
    if signals::is_present(policy.mask(), rule.signal) {
        return Err(Reason::Repeated);
    }
    Ok(())
}

// The codes are those of the condition's expression.
pub fn judge_condition(book: &Book, threshold: i32, codes: &[Code<u32>]) -> Result<(), Reason>
    requires { AreCodes codes.now }
    ensures { (c : Sense) → JudgedBy book.now (condition c threshold (expression_of codes.now)) result }
{
    if !limits::room_for_condition(book.conditions().len()) {
        return Err(Reason::TooMany);
    }
    if !limits::threshold_in_range(threshold) {
        return Err(Reason::OutOfRange);
    }
    if !mentions_below(codes, book.policies().len()) {
        return Err(Reason::OutOfRange);
    }
    Ok(())
}

pub fn judge_exclusion(book: &Book, exclusion: peal::Exclusion) -> Result<(), Reason>
    ensures { JudgedBy book.now (exclusion_form exclusion.first exclusion.second) result }
{
    if !book.conditions().is_empty() {
        return Err(Reason::OutOfPlace);
    }
    if !limits::room_for_exclusion(book.exclusions().len()) {
        return Err(Reason::TooMany);
    }
    if !limits::exclusion_in_range(exclusion.first, exclusion.second) {
        return Err(Reason::OutOfRange);
    }
    if has_exclusion(book.exclusions(), exclusion) {
        return Err(Reason::Repeated);
    }
    Ok(())
}
