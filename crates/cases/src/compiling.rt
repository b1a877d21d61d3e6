// Vectors of compiling.
//   compile C L TEXT   compiles condition C into the first L words of the space: the listing, or the refusal
//   large C L TEXT     the same, with a checksum in place of the words
//   both C S TEXT      the rod's answer on the compiled listing and the scored decision, on signal set S
//   agree C D TEXT     both on every set that D divides: how many give yes and no, or the first on which they differ
// TEXT is a book, all that follows the one space; in it `|` stands for byte 10. Before `compile` and `large` every word
// of the space is marked by its index, and they tell whether the words beyond the listing, lent or not, still are
// (`kept`).
ghost use Rattle.std.specs.Prelude.{◌≤◌, ◌<◌, length, IfOk};

use compiler::CompileError;
use printing::{print_count, print_decision, print_words};
use std::io;
use std::io::Write;
use vectors::{SETS, after_word, book_vector, signal_set};

// Marks begin here: no word of a listing is as large.
const FIRST_MARK: u32 = 4000000000;

// More marks than there are words in the space, so that no two words have the same.
const MARKS: usize = 1048576;

// A checksum stays below this prime.
const PRIME: u64 = 1000000007;

// By this a checksum tells the order of the words.
const FACTOR: u64 = 31;

// What marks word i.
fn mark(i: usize) -> u32 {
    FIRST_MARK + (i % MARKS) as u32
}

fn put_marks(words: &mut [u32]) {
    for (i, word) in words.iter_mut().enumerate() {
        *word = mark(i);
    }
}

// All words from index `from` on are marked.
fn are_marked(words: &[u32], from: usize) -> bool {
    for i in from..words.len() {
        if words[i] != mark(i) {
            return false;
        }
    }
    true
}

fn print_kept<W: Write>(out: &mut W, words: &[u32], from: usize) -> io::Result<()> {
    let kept = are_marked(words, from);
    write!(out, "{}", if kept { " kept" } else { " changed" })
}

fn with_word(sum: u64, word: u32) -> u64
    requires { sum < 1000000007 }
    ensures { result < 1000000007 }
{
    (sum * FACTOR + word as u64) % PRIME
}

// A sum of the words that tells their order too.
fn checksum(words: &[u32]) -> u64 {
    let mut sum = 0;
    for word in words {
        sum = with_word(sum, *word);
    }
    sum
}

fn print_listing<W: Write>(out: &mut W, words: &[u32], large: bool) -> io::Result<()> {
    if large {
        write!(out, " sum {}", checksum(words))
    } else {
        print_words(out, words)
    }
}

// The number of records, and of words: none on a refusal.
fn compiled_into(
    bytes: &[u8],
    condition: u32,
    words: &mut [u32],
) -> (Result<usize, CompileError>, usize)
    ensures { result.1 ≤ length words.old }
{
    let answer = compiler::compile(bytes, condition, words);
    let end = match answer {
        Ok(records) => records * layout::RECORD_WORDS,
        Err(_) => 0,
    };
    (answer, end)
}

fn run_compile<W: Write>(
    out: &mut W,
    text: &[u8],
    words: &mut [u32],
    large: bool,
) -> io::Result<()> {
    put_marks(words);
    let v = book_vector(text);
    let lent = v.number as usize;
    if words.len() < lent {
        return write!(out, "no space");
    }
    let (answer, end) = compiled_into(v.book, v.condition, &mut words[..lent]);
    print_count(out, "records", answer)?;
    print_listing(out, &words[..end], large)?;
    print_kept(out, words, end)
}

fn run_both<W: Write>(out: &mut W, text: &[u8], words: &mut [u32]) -> io::Result<()> {
    let v = book_vector(text);
    let set = signal_set(v.number);
    let (answer, end) = compiled_into(v.book, v.condition, words);
    if end == 0 {
        print_count(out, "records", answer)?;
    } else {
        print_decision(out, rod::decide(&words[..end], set))?;
    }
    write!(out, " ")?;
    print_decision(out, score::decide(v.book, v.condition, set))
}

// What rod and score both say, if they say the same.
fn common_answer(bytes: &[u8], condition: u32, listing: &[u32], set: u16) -> Option<bool> {
    match (
        rod::decide(listing, set),
        score::decide(bytes, condition, set),
    ) {
        (Ok(rod), Ok(logger)) if rod == logger => Some(rod),
        _ => None,
    }
}

// The sets 0, step, 2 step, .. in turn.
fn print_agreement<W: Write>(
    out: &mut W,
    bytes: &[u8],
    condition: u32,
    listing: &[u32],
    step: u32,
) -> io::Result<()>
    requires { 0 < step }
{
    let mut set = 0;
    let mut yes = 0usize;
    let mut no = 0usize;
    // Not a `for`: of `step_by` it is not known how many turns it has, which bounds the counts.
    while set < SETS {
        match common_answer(bytes, condition, listing, set as u16) {
            Some(true) => yes += 1,
            Some(false) => no += 1,
            None => return write!(out, "differ {set}"),
        }
        set += step as usize;
    }
    write!(out, "agree {yes} {no}")
}

fn run_agree<W: Write>(out: &mut W, text: &[u8], words: &mut [u32]) -> io::Result<()> {
    let v = book_vector(text);
    let (answer, end) = compiled_into(v.book, v.condition, words);
    if end == 0 {
        print_count(out, "records", answer)
    } else if v.number > 0 {
        print_agreement(out, v.book, v.condition, &words[..end], v.number)
    } else {
        write!(out, "no step")
    }
}

// Answers a vector of compiling, and tells whether the line is one. Each word has its arm: no two take and give the same.
pub fn answered<W: Write>(out: &mut W, line: &[u8], words: &mut [u32]) -> io::Result<bool> {
    if let Some(text) = after_word(line, b"compile ") {
        run_compile(out, text, words, false)?;
    } else if let Some(text) = after_word(line, b"large ") {
        run_compile(out, text, words, true)?;
    } else if let Some(text) = after_word(line, b"both ") {
        run_both(out, text, words)?;
    } else if let Some(text) = after_word(line, b"agree ") {
        run_agree(out, text, words)?;
    } else {
        return Ok(false);
    }
    Ok(true)
}
