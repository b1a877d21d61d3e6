// The program `listing`: a book on standard input; for each of its conditions the listing and its choice, or that it
// was declined, on standard output.
#![tactic(auto)]

ghost use Rattle.std.specs.Prelude.{◌*◌, ◌≤◌, length};

use printing::{print_answer, print_count, read_full};
use std::io;
use std::io::Write;

// One byte more than a book may have, so that a longer one is refused and not cut.
const BYTES: usize = 8193;

// Space for 4,096 records.
const WORDS: usize = 4096 * layout::RECORD_WORDS;

// A record has a line, its words apart by spaces.
fn print_records<W: Write>(out: &mut W, words: &[u32]) -> io::Result<()> {
    for (i, word) in words.iter().enumerate() {
        let last = (i + 1) % layout::RECORD_WORDS == 0;
        write!(out, "{word}{}", if last { "\n" } else { " " })?;
    }
    Ok(())
}

// The choice check judges the listing anew; if it declined what was compiled, that would be printed in its place.
fn print_listing<W: Write>(
    out: &mut W,
    condition: u32,
    records: usize,
    words: &[u32],
) -> io::Result<()>
    requires { records * 4 ≤ length words.now }
{
    writeln!(out, "condition {condition} records {records}")?;
    let listing = &words[..records * layout::RECORD_WORDS];
    print_records(out, listing)?;
    print_answer(out, checks::choice(listing).map(|chosen| chosen.choice))?;
    writeln!(out)
}

fn list_condition<W: Write>(
    out: &mut W,
    bytes: &[u8],
    condition: u32,
    words: &mut [u32],
) -> io::Result<()> {
    match compiler::compile(bytes, condition, words) {
        Ok(records) => print_listing(out, condition, records, words),
        Err(refusal) => writeln!(out, "{refusal}"),
    }
}

// A declined condition leaves the words as they were, and the next ones go on.
fn list_conditions<W: Write>(out: &mut W, bytes: &[u8], conditions: usize) -> io::Result<()>
    requires { conditions ≤ 8 }
{
    let mut words = [0u32; WORDS];
    for condition in 0..conditions {
        list_condition(out, bytes, condition as u32, &mut words)?;
    }
    Ok(())
}

// A declined book prints nothing but its refusal, so it is judged before its conditions.
fn list_book<W: Write>(out: &mut W, bytes: &[u8]) -> io::Result<()> {
    match book::check(bytes) {
        Ok(counts) => list_conditions(out, bytes, counts.conditions),
        Err(refusal) => writeln!(out, "{refusal}"),
    }
}

fn main(rt: HostRuntime) -> io::Result<()> {
    let mut bytes = [0u8; BYTES];
    let length = read_full(&mut rt.stdin(), &mut bytes)?;
    list_book(&mut rt.stdout(), &bytes[..length])
}
