// Vectors of books.
//   check TEXT         the check of the book TEXT
//   decide C S TEXT    the scored decision of condition C, up to 4294967295, on signal set S, up to 65535
//   score C S TEXT     the score by which it is decided: hundredths and remainder
// TEXT is all that follows the one space; in it `|` stands for byte 10.
use printing::{print_answer, print_decision};
use std::io;
use std::io::Write;
use vectors::{after_word, book_vector, signal_set};

// Answers a vector of books, and tells whether the line is one. Each word has its arm: no two take and give the same.
pub fn answered<W: Write>(out: &mut W, line: &[u8]) -> io::Result<bool> {
    if let Some(text) = after_word(line, b"check ") {
        print_answer(out, book::check(text))?;
    } else if let Some(text) = after_word(line, b"decide ") {
        let v = book_vector(text);
        print_decision(
            out,
            score::decide(v.book, v.condition, signal_set(v.number)),
        )?;
    } else if let Some(text) = after_word(line, b"score ") {
        let v = book_vector(text);
        print_answer(
            out,
            score::evaluate(v.book, v.condition, signal_set(v.number)),
        )?;
    } else {
        return Ok(false);
    }
    Ok(true)
}
