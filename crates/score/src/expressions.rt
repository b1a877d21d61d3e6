// The score of a condition's expression on a signal set: its codes one by one, and the scores that wait for a join.
ghost use Rattle.std.specs.Prelude.{◌≡◌, ◌<◌, ◌≤◌, [], ◌∷◌, ◌++◌, length};
ghost use Rattle.arrayvec.specs.ArrayVec.{array_vec_len};
ghost use Rattle.peal.specs.Score.{score};
ghost use Rattle.book.specs.Asked.{the_condition};
ghost use Rattle.score.specs.Pairs.{Is};

use crate::exact::Exact;
use crate::policies::policy_score;
use arrayvec::ArrayVec;
use text::Code;

// A condition has at most so many mentions, and so many scores wait at most.
const MOST_SCORES: usize = 16;

// The scores that wait for a join, the last of them is joined first.
type Waiting = ArrayVec<Exact, MOST_SCORES>;

// The last two, which wait no longer.
fn last_two(waiting: &mut Waiting) -> (Exact, Exact)
    requires { 2 ≤ array_vec_len waiting.old }
    ensures { waiting.old.items ≡ waiting.new.items ++ result.0 ∷ result.1 ∷ [] }
{
    let (Some(two), Some(one)) = (waiting.pop(), waiting.pop()) else {
        unreachable!()
    };
    (one, two)
}

// The score of condition n, which is one of the book: a number has no type that says it.
pub fn expression_score(book: &book::Book, n: usize, set: u16) -> Exact
    requires { n < length book.now.conditions }
    ensures { Is result (score book.now.policies set (the_condition book.now n).expression) }
{
    let policies = book.policies();
    let condition = &book.conditions()[n];
    let mut waiting = Waiting::new();
    for code in condition.codes() {
        match *code {
            Code::Policy(k) => waiting.push(policy_score(&policies[k as usize], set)),
            Code::Min => {
                let (one, two) = last_two(&mut waiting);
                waiting.push(one.min(two));
            }
            Code::Max => {
                let (one, two) = last_two(&mut waiting);
                waiting.push(one.max(two));
            }
        }
    }
    let Some(score) = waiting.pop() else {
        unreachable!()
    };
    score
}
