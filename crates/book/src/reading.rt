// A whole book: its lines, read from the top.
ghost use Rattle.std.specs.Prelude.{◌≡◌};
ghost use Rattle.book.specs.SoFar.{Bounded, so_far_of};
ghost use Rattle.book.specs.Adding.{LineRead, read_meaning};
ghost use Rattle.book.specs.Asked.{AskedAs};
ghost use Rattle.book.specs.Books.{read, checked};
ghost use Rattle.book.specs.Meaning.{checked_meaning};

use crate::acceptance::SoFar;
use crate::adding::add_line;
use crate::books::Book;
use crate::{Counts, Declined, Reason, Refusal};
use text::line_end;

// The line of that number; `ended` tells whether byte 10 ends it.
fn read_line(
    book: &mut Book,
    state: SoFar,
    text: &[u8],
    ended: bool,
    line: usize,
) -> Result<SoFar, Refusal>
    requires { Bounded (so_far_of book.old state) }
    ensures { LineRead (so_far_of book.old state) text.now ended line result book.new }
{
    add_line(book, state, text, ended, line == 1).map_err(|reason| Refusal { reason, line })
}

// Reads the book into the one that is lent, whatever that holds; where it is refused, nothing of use is left there.
fn read(bytes: &[u8], book: &mut Book) -> Result<(), Refusal>
    ensures { read_meaning result book.new ≡ read bytes.now }
{
    let size = bytes.len();
    if !limits::book_fits(size) {
        return Err(Refusal {
            reason: Reason::TooLong,
            line: 0,
        });
    }
    book.clear();
    let mut state = SoFar {
        in_rules: false,
        old_zero: false,
    };
    let mut at = 0;
    let mut line = 1;
    // A `while`: where a line ends tells where the next one begins, and the last one may have no end (text's `Text`).
    while at < size {
        let end = line_end(bytes, at);
        state = read_line(book, state, &bytes[at..end], end < size, line)?;
        at = end + 1;
        line += 1;
    }
    Ok(())
}

// For the crates above: reads the book into the one that is lent, whatever that holds, and returns in it the place of the
// condition of a number, which counts from 0.
#[tactic(auto, using(crate::proofs::ConditionLaws::condition_there, crate::proofs::ConditionLaws::condition_absent), unfolding(crate::specs::Books::asked))]
pub fn ask(bytes: &[u8], condition: u32, book: &mut Book) -> Result<usize, Declined>
    ensures { AskedAs bytes.now condition book.new result }
{
    read(bytes, book)?;
    let n = condition as usize;
    if n < book.conditions().len() {
        Ok(n)
    } else {
        Err(Declined::NoCondition)
    }
}

#[tactic(auto, unfolding(crate::specs::Books::checked))]
pub fn check(bytes: &[u8]) -> Result<Counts, Refusal>
    ensures { checked_meaning result ≡ checked bytes.now }
{
    let mut book = Book::default();
    read(bytes, &mut book)?;
    Ok(Counts {
        policies: book.policies().len(),
        conditions: book.conditions().len(),
    })
}
