// Compiling a condition of a book into lent words, for offices.
// `compile` is the call, and takes every byte string, condition number and slice. The modules are this crate's own.
#![tactic(auto)]

mod exclusions;
mod nodes;
mod planning;
mod searching;

ghost use Rattle.std.specs.Prelude.{◌≡◌, ◌<◌, length, Some};
ghost use Rattle.translation.specs.Translation.{listing_records};
ghost use Rattle.book.specs.Asked.{the_condition};
ghost use Rattle.compiler.specs.Compiling.{fitting, returned, lent_after};
ghost use Rattle.compiler.specs.Meaning.{error_number, error_number_few, error_value, compiled_meaning, CompilingRan};
ghost use Rattle.compiler.specs.declared.CompileError.TheVariants.{Declined};
ghost use Rattle.answers.specs.Answers.{refused_text};

use answers::Refusal;
use exclusions::put_exclusions;
use nodes::{count_records, line_counts, put_nodes};
use std::fmt;

// Why compiling refuses.
#[derive(Clone, Copy)]
pub enum CompileError {
    // There is no such condition.
    Declined(book::Declined),
    // The listing has more words than were lent.
    NoRoom,
}

// The number that document 01 gives a listing without room, for the crates above.
pub const NO_ROOM: u64 = 8;

impl From<book::Declined> for CompileError {
    ghost from_gives = { λ declined error. error ≡ Declined declined };

    fn from(declined: book::Declined) -> CompileError {
        CompileError::Declined(declined)
    }
}

impl Refusal for CompileError {
    ghost number_of = { error_number };

    ghost value_of = { error_value };

    fn number(&self) -> u64 {
        match self {
            CompileError::Declined(declined) => declined.number(),
            CompileError::NoRoom => NO_ROOM,
        }
    }

    fn value(&self) -> u64 {
        match self {
            CompileError::Declined(declined) => declined.value(),
            CompileError::NoRoom => 0,
        }
    }

    ghost few = { error_number_few };
}

impl fmt::Display for CompileError {
    ghost output = { λ error. Some (refused_text (error_number error) (error_value error)) };

    fn fmt<W: fmt::Write>(&self, f: &mut fmt::Formatter<W>) -> fmt::Result {
        write!(f, "refused {} {}", self.number(), self.value())
    }
}

// Condition n of a book. The words are written only once the listing is known to have room.
fn compile_condition(book: &book::Book, n: usize, words: &mut [u32]) -> Result<usize, CompileError>
    requires { n < length book.now.conditions }
    ensures condition_returns { compiled_meaning result
        ≡ returned (fitting (length words.old) (listing_records book.now (the_condition book.now n))) }
    ensures condition_leaves { words.new
        ≡ lent_after words.old (fitting (length words.old) (listing_records book.now (the_condition book.now n))) }
{
    let condition = &book.conditions()[n];
    let exclusions = book.exclusions().len();
    let lines = line_counts(book, condition);
    let records = count_records(exclusions, &lines);
    let needed = records * layout::RECORD_WORDS;
    if words.len() < needed {
        return Err(CompileError::NoRoom);
    }
    put_exclusions(book, words);
    put_nodes(book, condition, &lines, words, exclusions + 1);
    Ok(records)
}

// The number of records; four words each stand first in the lent slice.
pub fn compile(bytes: &[u8], condition: u32, words: &mut [u32]) -> Result<usize, CompileError>
    ensures { CompilingRan bytes.now condition words.old words.new result }
{
    let mut book = book::Book::default();
    let n = book::ask(bytes, condition, &mut book)?;
    compile_condition(&book, n, words)
}
