// Records written into lent words, where there is room for them. The crates above keep to these conditions.
ghost use Rattle.std.specs.Prelude.{cond, ◌≡◌, ◌+◌, ◌*◌, ◌^◌, ◌≤◌, ◌<◌, eqb, length};
ghost use Rattle.layout.specs.Steps.{record_meaning};
ghost use Rattle.layout.specs.Writing.{RoomFor, put_record, line_record};

use crate::records::{LINE, LINES, MASK, NEXT, RECORD_WORDS, Record};

// Record n, which counts from 1. It may be any number that has room: `next` is a word already.
pub fn put_record(words: &mut [u32], n: usize, record: Record)
    requires { (0 < n) × (n * 4 ≤ length words.old) }
    ensures { words.new ≡ put_record words.old n (record_meaning «record») }
{
    let at = (n - 1) * RECORD_WORDS;
    words[at] = record.kind;
    words[at + MASK] = record.mask;
    words[at + LINES] = record.lines;
    words[at + NEXT] = record.next;
}

// The next of a line as record n: 0 in the policy's last line, which is record `last`.
fn next_line(n: usize, last: usize) -> u32
    requires { n + 1 < 2 ^ 32 }
    ensures { result ≡ cond (eqb n last) 0 (n + 1) }
{
    if n == last {
        return 0;
    }
    (n + 1) as u32
}

// A line as record n.
#[tactic(auto, unfolding(crate::specs::Writing::line_record, crate::specs::Records::line_kind))]
pub fn put_line(words: &mut [u32], n: usize, mask: u32, last: usize)
    requires { RoomFor n 1 words.old }
    ensures { words.new ≡ put_record words.old n (line_record last n mask) }
{
    let next = next_line(n, last);
    let line = Record {
        kind: LINE,
        mask,
        lines: 0,
        next,
    };
    put_record(words, n, line);
}
