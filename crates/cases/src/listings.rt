// Vectors of listings.
//   verdict W W ..           the verdict on the words
//   read S W W ..            the rod's answer on signal set S
//   choice W W ..            the choice check, and how many sets were judged
//   compare W .. / W ..      the comparison
//   traverse N S .. / W ..   a traverse with N lent answers, 7 each, on the sets S: what it returned, and what it left
// Each number stands after one space.
ghost use Rattle.std.specs.Prelude.{◌≤◌, length};

use printing::{print_answer, print_bytes, print_count, print_decision};
use std::io;
use std::io::Write;
use vectors::{after_word, numbers, parted, signal_set};

// At most so many numbers are taken, of a line or on either side of its `/`, and at most so many answers are lent.
const ROOM: usize = 512;

// What each lent answer holds before the call.
const LENT: u8 = 7;

fn run_verdict<W: Write>(out: &mut W, text: &[u8]) -> io::Result<()> {
    print_answer(out, layout::check(&numbers::<ROOM>(text)).map(|_| "sound"))
}

fn run_choice<W: Write>(out: &mut W, text: &[u8]) -> io::Result<()> {
    print_answer(out, checks::choice(&numbers::<ROOM>(text)))
}

fn run_read<W: Write>(out: &mut W, text: &[u8]) -> io::Result<bool> {
    let numbers = numbers::<ROOM>(text);
    let Some((set, words)) = numbers.split_first() else {
        return Ok(false);
    };
    print_decision(out, rod::decide(words, signal_set(*set)))?;
    Ok(true)
}

fn run_compare<W: Write>(out: &mut W, text: &[u8]) -> io::Result<bool> {
    let Some((one, two)) = parted(text, b'/') else {
        return Ok(false);
    };
    print_answer(
        out,
        checks::compare(&numbers::<ROOM>(one), &numbers::<ROOM>(two)),
    )?;
    Ok(true)
}

// Sets and answers are lent as slices, as the call takes them.
fn traverse_sets<W: Write>(
    out: &mut W,
    numbers: &[u32],
    words: &[u32],
    sets: &mut [u16],
    answers: &mut [u8],
) -> io::Result<()> {
    for (set, number) in sets.iter_mut().zip(numbers) {
        *set = signal_set(*number);
    }
    print_count(out, "answered", rod::traverse(words, sets, answers))?;
    write!(out, " left")?;
    print_bytes(out, answers)
}

// The first number is how many answers are lent, at most as many as there is room for; the others are the sets.
fn traverse_numbers<W: Write>(out: &mut W, numbers: &[u32], words: &[u32]) -> io::Result<bool>
    requires { length numbers.now ≤ 512 }
{
    let Some((lent, asked)) = numbers.split_first() else {
        return Ok(false);
    };
    let lent = *lent as usize;
    if lent > ROOM {
        return Ok(false);
    }
    let mut sets = [0u16; ROOM];
    let mut answers = [LENT; ROOM];
    traverse_sets(
        out,
        asked,
        words,
        &mut sets[..asked.len()],
        &mut answers[..lent],
    )?;
    Ok(true)
}

fn run_traverse<W: Write>(out: &mut W, text: &[u8]) -> io::Result<bool> {
    let Some((left, right)) = parted(text, b'/') else {
        return Ok(false);
    };
    traverse_numbers(out, &numbers::<ROOM>(left), &numbers::<ROOM>(right))
}

// Answers a vector of listings, and tells whether the line is one. Each word has its arm: no two take and give the same.
pub fn answered<W: Write>(out: &mut W, line: &[u8]) -> io::Result<bool> {
    if let Some(text) = after_word(line, b"verdict") {
        run_verdict(out, text)?;
        Ok(true)
    } else if let Some(text) = after_word(line, b"read") {
        run_read(out, text)
    } else if let Some(text) = after_word(line, b"choice") {
        run_choice(out, text)?;
        Ok(true)
    } else if let Some(text) = after_word(line, b"compare") {
        run_compare(out, text)
    } else if let Some(text) = after_word(line, b"traverse") {
        run_traverse(out, text)
    } else {
        Ok(false)
    }
}
