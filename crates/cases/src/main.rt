// Runs the cases: a vector on each line of standard input, and its answer on the same line of standard output. What
// vectors look like stands in `listings`, `books` and `compiling`, beside what answers them. A line that begins with #
// is copied, and one that is no vector is answered by `no vector`.
#![tactic(auto)]

mod books;
mod compiling;
mod listings;

use printing::read_full;
use std::io;
use std::io::Write;
use vectors::put_line_ends;

// Room for the vectors: what comes after so many bytes is not read.
const VECTORS: usize = 262144;

// Room for the largest listing of the cases, which has 205,952 records.
const SPACE: usize = 205952 * layout::RECORD_WORDS;

fn run_vector<W: Write>(out: &mut W, line: &[u8], space: &mut [u32]) -> io::Result<()> {
    if listings::answered(out, line)? {
        return Ok(());
    }
    if books::answered(out, line)? {
        return Ok(());
    }
    if compiling::answered(out, line, space)? {
        return Ok(());
    }
    write!(out, "no vector")
}

fn run_line<W: Write>(out: &mut W, line: &mut [u8], space: &mut [u32]) -> io::Result<()> {
    if line.starts_with(b"#") {
        return out.write_all(line);
    }
    put_line_ends(line);
    run_vector(out, line, space)
}

fn run_lines<W: Write>(out: &mut W, text: &mut [u8], space: &mut [u32]) -> io::Result<()> {
    let mut at = 0;
    // Not a `for`: over `split_inclusive_mut` it gets no proof in a generic function.
    while at < text.len() {
        let rest = &mut text[at..];
        let end = rest.iter().position(|byte| *byte == b'\n');
        let length = end.unwrap_or(rest.len());
        run_line(out, &mut rest[..length], space)?;
        writeln!(out)?;
        at += length + 1;
    }
    Ok(())
}

fn main(rt: HostRuntime) -> io::Result<()> {
    let mut text = [0u8; VECTORS];
    let length = read_full(&mut rt.stdin(), &mut text)?;
    let mut space = [0u32; SPACE];
    run_lines(&mut rt.stdout(), &mut text[..length], &mut space)
}
