// Lines, each tried in the order 1 to 6 and added to the book so far.
// For this crate only: no other can name these functions, and each call is proved to meet its condition.
#![tactic(auto, unfolding(crate::specs::Acceptance::accept, crate::specs::Acceptance::in_place, crate::specs::Acceptance::in_count, crate::specs::Acceptance::in_range, crate::specs::Acceptance::is_new, crate::specs::Acceptance::missing_default, crate::specs::Acceptance::default_of, crate::specs::Acceptance::book_with, crate::specs::Acceptance::opens_rules, crate::specs::Acceptance::old_zero_after, crate::specs::Judged::with_line, crate::specs::Books::accept_form, crate::specs::Books::read_line))]

ghost use Rattle.std.specs.Prelude.{◌≡◌};
ghost use Rattle.std.proofs.Math.Option.{some};
ghost use Rattle.text.specs.Codes.{expression_of};
ghost use Rattle.text.specs.Forms.{policy, rule as rule_form, exclusion as exclusion_form, condition};
ghost use Rattle.book.specs.Acceptance.{missing_default};
ghost use Rattle.book.specs.SoFar.{Bounded, so_far_of};
ghost use Rattle.book.specs.Adding.{Adds, OldZeroAdded, CanAddCondition, CanAddForm, FormAdded, LineAdded};

use crate::Reason;
use crate::acceptance::{SoFar, judge_condition, judge_exclusion, judge_policy, judge_rule};
use crate::books::Book;
use crate::conditions::Condition;
use crate::policies::Policy;
use text::{Code, Codes, Line, read_codes, read_line};

// A score of 1.00, in hundredths.
const FULL_SCORE: i32 = 100;

// An `o`, which stands only as the first line.
fn add_old_zero(top: bool) -> Result<SoFar, Reason>
    ensures { (b : Book) (state : SoFar) → OldZeroAdded b state top result }
{
    if !top {
        return Err(Reason::OutOfPlace);
    }
    Ok(SoFar {
        in_rules: false,
        old_zero: true,
    })
}

// The default of a policy that gives none; `old` tells whether the book begins with an `o`.
fn missing_default(old: bool, operator: peal::Operator) -> i32
    ensures { result ≡ missing_default old operator }
{
    if old {
        return 0;
    }
    match operator {
        peal::Operator::Min => FULL_SCORE,
        peal::Operator::Max => 0,
        peal::Operator::Sum => 0,
        peal::Operator::Mul => FULL_SCORE,
    }
}

fn add_policy(
    book: &mut Book,
    state: SoFar,
    operator: peal::Operator,
    default: i32,
) -> Result<SoFar, Reason>
    requires { Bounded (so_far_of book.old state) }
    ensures { Adds (so_far_of book.old state) (policy operator (some default)) result book.new }
{
    judge_policy(book, default)?;
    book.push_policy(Policy::new(operator, default));
    Ok(SoFar {
        in_rules: true,
        ..state
    })
}

fn add_rule(book: &mut Book, state: SoFar, rule: peal::Rule) -> Result<SoFar, Reason>
    requires { Bounded (so_far_of book.old state) }
    ensures { Adds (so_far_of book.old state) (rule_form rule.signal rule.score) result book.new }
{
    judge_rule(book, state, rule)?;
    book.push_rule(rule);
    Ok(state)
}

fn add_exclusion(book: &mut Book, state: SoFar, exclusion: peal::Exclusion) -> Result<SoFar, Reason>
    requires { Bounded (so_far_of book.old state) }
    ensures { Adds (so_far_of book.old state) (exclusion_form exclusion.first exclusion.second) result book.new }
{
    judge_exclusion(book, exclusion)?;
    book.push_exclusion(exclusion);
    Ok(SoFar {
        in_rules: false,
        ..state
    })
}

// The codes are those of the condition's expression.
fn add_condition(
    book: &mut Book,
    state: SoFar,
    sense: peal::Sense,
    threshold: i32,
    codes: &[Code<u32>],
) -> Result<SoFar, Reason>
    requires { CanAddCondition (so_far_of book.old state) codes.now }
    ensures { Adds (so_far_of book.old state) (condition sense threshold (expression_of codes.now))
        result book.new }
{
    judge_condition(book, threshold, codes)?;
    book.push_condition(Condition::new(sense, threshold, codes));
    Ok(SoFar {
        in_rules: false,
        ..state
    })
}

// A line of at most 128 bytes that was read as `form`; `top` tells whether it is line 1. It stands apart from
// `add_line` so that each form's function is put in place by the back end (docs/DECISIONS.md, D34).
#[tactic(auto, unfolding(crate::specs::Books::accept_form, text::specs::Parsing::CodesRead))]
fn add_form(
    book: &mut Book,
    state: SoFar,
    line: &[u8],
    top: bool,
    form: Line,
) -> Result<SoFar, Reason>
    requires { CanAddForm (so_far_of book.old state) line.now form }
    ensures { FormAdded (so_far_of book.old state) line.now top form result book.new }
{
    match form {
        Line::Policy { operator, default } => add_policy(book, state, operator, default),
        Line::BarePolicy { operator } => {
            let default = missing_default(state.old_zero, operator);
            add_policy(book, state, operator, default)
        }
        Line::Rule { signal, score } => add_rule(book, state, peal::Rule { signal, score }),
        Line::Condition {
            sense,
            threshold,
            from,
        } => {
            let mut codes = Codes::new();
            if !read_codes(line, from, &mut codes) {
                return Err(Reason::NoForm);
            }
            add_condition(book, state, sense, threshold, &codes)
        }
        Line::Exclusion { first, second } => {
            add_exclusion(book, state, peal::Exclusion { first, second })
        }
        Line::OldZero => add_old_zero(top),
    }
}

// A line; `ended` tells whether byte 10 ends it, `top` whether it is line 1.
pub fn add_line(
    book: &mut Book,
    state: SoFar,
    line: &[u8],
    ended: bool,
    top: bool,
) -> Result<SoFar, Reason>
    requires { Bounded (so_far_of book.old state) }
    ensures { LineAdded (so_far_of book.old state) line.now ended top result book.new }
{
    if !limits::line_fits(line.len()) {
        return Err(Reason::TooLong);
    }
    if !ended {
        return Err(Reason::NoForm);
    }
    let Some(form) = read_line(line) else {
        return Err(Reason::NoForm);
    };
    add_form(book, state, line, top, form)
}
