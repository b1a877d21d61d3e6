// For the programs: their input, and the answers of the calls in document 01's words and numbers. What is answered prints
// itself (`Display`, in the crate that declares it). Each function ends where a write or a read fails, with its error.
#![tactic(auto)]

ghost use Rattle.std.specs.Prelude.{◌≤◌, ◌<◌, ◌++◌, length, take, codes, if◌then◌else◌, IfOk, OnOk, IfSome, MatchResult};
ghost use Rattle.std.specs.Fmt.{decimal};
ghost use Rattle.printing.specs.Words.{spaced};
ghost use Rattle.std.specs.Io.KnownBytes.{Appends, Consumes, IsAtEnd};

use std::fmt::Display;
use std::io;
use std::io::{Read, Write};

// Fills the buffer as far as the input goes, and returns how many bytes it then holds of it: the next ones, and if they do
// not fill it, all that were left.
pub fn read_full<R: Read>(input: &mut R, buffer: &mut [u8]) -> io::Result<usize>
    ensures within { IfOk result (λ n. n ≤ length buffer.old) }
    ensures next { IfOk result (λ n. Consumes (R.remaining input.old) (R.remaining input.new) (take n buffer.new)) }
    ensures ended { IfOk result (λ n. n < length buffer.new → IsAtEnd (R.remaining input.new)) }
{
    let mut at = 0;
    // Not a `for`: a read gives as many bytes as it likes.
    while at < buffer.len() {
        let n = input.read(&mut buffer[at..])?;
        if n == 0 {
            return Ok(at);
        }
        at += n;
    }
    Ok(at)
}

// What was answered, or refused.
pub fn print_answer<W: Write, T: Display + Drop, E: Display + Drop>(
    out: &mut W,
    answer: Result<T, E>,
) -> io::Result<()>
    ensures { OnOk result (MatchResult answer
        (λ value. IfSome (T.output value) (Appends (W.contents out.old) (W.contents out.new)))
        (λ refusal. IfSome (E.output refusal) (Appends (W.contents out.old) (W.contents out.new)))) }
{
    match answer {
        Ok(value) => write!(out, "{value}"),
        Err(error) => write!(out, "{error}"),
    }
}

// Yes or no, or what was refused.
pub fn print_decision<W: Write, E: Display + Drop>(
    out: &mut W,
    decision: Result<bool, E>,
) -> io::Result<()>
    ensures { OnOk result (MatchResult decision
        (λ yes. Appends (W.contents out.old) (W.contents out.new) (if yes then codes "yes" else codes "no"))
        (λ refusal. IfSome (E.output refusal) (Appends (W.contents out.old) (W.contents out.new)))) }
{
    match decision {
        Ok(true) => write!(out, "yes"),
        Ok(false) => write!(out, "no"),
        Err(refusal) => write!(out, "{refusal}"),
    }
}

// How many, after what they are, or what was refused.
pub fn print_count<W: Write, E: Display + Drop>(
    out: &mut W,
    what: &str,
    count: Result<usize, E>,
) -> io::Result<()>
    ensures { OnOk result (MatchResult count
        (λ n. Appends (W.contents out.old) (W.contents out.new) (what.now ++ codes " " ++ decimal n))
        (λ refusal. IfSome (E.output refusal) (Appends (W.contents out.old) (W.contents out.new)))) }
{
    match count {
        Ok(count) => write!(out, "{what} {count}"),
        Err(refusal) => write!(out, "{refusal}"),
    }
}

// Words as numbers, each after a space.
pub fn print_words<W: Write>(out: &mut W, words: &[u32]) -> io::Result<()>
    ensures { OnOk result (Appends (W.contents out.old) (W.contents out.new) (spaced words.now)) }
{
    for word in words {
        write!(out, " {word}")?;
    }
    Ok(())
}

// Bytes as numbers, each after a space.
pub fn print_bytes<W: Write>(out: &mut W, bytes: &[u8]) -> io::Result<()>
    ensures { OnOk result (Appends (W.contents out.old) (W.contents out.new) (spaced bytes.now)) }
{
    for byte in bytes {
        write!(out, " {byte}")?;
    }
    Ok(())
}
