// The scored decision on a book's bytes, and the score itself, for loggers. `decide` and `evaluate` are the calls, and
// take every byte string, condition number and signal set. The modules are this crate's own.
#![tactic(auto)]

mod exact;
mod expressions;
mod policies;

ghost use Rattle.std.specs.Prelude.{◌≡◌, ◌<◌, length};
ghost use Rattle.peal.specs.Score.{decision};
ghost use Rattle.book.specs.Asked.{the_condition};
ghost use Rattle.book.specs.Meaning.{condition_answer};
ghost use Rattle.score.specs.Decisions.{scored_answer};
ghost use Rattle.score.specs.Shown.{shown_answer};

use book::{Book, Declined};
pub use exact::Exact;
use exact::meets;
use expressions::expression_score;

// Condition n of the book is met on the set.
fn is_met(book: &Book, n: usize, set: u16) -> bool
    requires { n < length book.now.conditions }
    ensures { result ≡ decision book.now.policies (the_condition book.now n) set }
{
    let condition = &book.conditions()[n];
    let score = expression_score(book, n, set);
    meets(condition.sense(), condition.threshold(), score)
}

// Whether the condition of that number is met on the set.
pub fn decide(bytes: &[u8], condition: u32, set: u16) -> Result<bool, Declined>
    ensures { condition_answer result ≡ scored_answer bytes.now condition set }
{
    let mut book = Book::default();
    let n = book::ask(bytes, condition, &mut book)?;
    Ok(is_met(&book, n, set))
}

// The score by which a condition is decided, that of its expression on the set: hundredths rounded toward minus infinity,
// and the exact remainder.
pub fn evaluate(bytes: &[u8], condition: u32, set: u16) -> Result<Exact, Declined>
    ensures { condition_answer result ≡ shown_answer bytes.now condition set }
{
    let mut book = Book::default();
    let n = book::ask(bytes, condition, &mut book)?;
    Ok(expression_score(&book, n, set))
}
