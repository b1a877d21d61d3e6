// The rod: what a listing says of a signal set, or of each set of a traverse. It knows the listing part and nothing of
// books. `decide` and `traverse` are for every caller; `reading` and `next_index` are for the crates above.
#![tactic(auto)]

ghost use Rattle.std.specs.Prelude.{◌≡◌, ◌+◌, ◌/◌, ◌≤◌, ◌<◌, length, Some};
ghost use Rattle.answers.specs.Answers.{result as answered, refused_text};
ghost use Rattle.signals.specs.Sets.{inside};
ghost use Rattle.layout.specs.Judgement.{verdict};
ghost use Rattle.layout.specs.Nodes.{leading_lines};
ghost use Rattle.layout.specs.Steps.{records_from};
ghost use Rattle.rod.specs.Reading.{some_line, policy_value, says, rod_answer};
ghost use Rattle.rod.specs.Traversing.{answers_to};
ghost use Rattle.layout.specs.Meaning.{listing_answer};
ghost use Rattle.rod.specs.Meaning.{error_number, error_number_few, error_value, TraverseRan};
ghost use Rattle.rod.specs.declared.TraverseError.TheVariants.{Declined};
ghost use Rattle.rod.specs.Values.{ValueAdded, LastJoined, join_meaning, mask_at, LinesTo, listed_at, node_end, NodeTo, NodeAt, ReadingUnderway};

use answers::Refusal;
use std::fmt;

// The line at index i, a signal set, lies wholly inside the set.
fn is_inside(words: &[u32], i: usize, set: u16) -> bool
    requires i_in_bounds { i < length words.now / 4 }
    requires i_bound { mask_at words.now i ≤ 65535 }
    ensures { result ≡ inside (mask_at words.now i) set }
{
    let line = words[i * layout::RECORD_WORDS + layout::MASK];
    line & set as u32 == line
}

// Lines are taken so many at a turn: the test of the end costs as much as a line's.
const TURN_LINES: usize = 4;

// Some line of the records from index `from` up to `end`, all of them lines, lies wholly inside the set.
fn some_line(words: &[u32], from: usize, end: usize, set: u16) -> bool
    requires { LinesTo words.now from end }
    ensures { result ≡ some_line (leading_lines (records_from words.now from)) set }
{
    let mut i = from;
    // Four at a turn: with `any` over the lines a reading took a third longer.
    while TURN_LINES <= end - i {
        if is_inside(words, i, set) {
            return true;
        }
        if is_inside(words, i + 1, set) {
            return true;
        }
        if is_inside(words, i + 2, set) {
            return true;
        }
        if is_inside(words, i + 3, set) {
            return true;
        }
        i += TURN_LINES;
    }
    for rest in i..end {
        if is_inside(words, rest, set) {
            return true;
        }
    }
    false
}

// What the policy at index `at` says of the set; its lines end before index `end`.
fn policy_value(words: &[u32], at: usize, end: usize, quiet: bool, turned: bool, set: u16) -> bool
    requires at_in_bounds { at < length words.now / 4 }
    requires lines_to { LinesTo words.now (at + 1) end }
    ensures { result ≡ policy_value set (listed_at words.now at quiet turned) }
{
    let mask = words[at * layout::RECORD_WORDS + layout::MASK];
    if mask & set as u32 != 0 {
        let found = some_line(words, at + 1, end, set);
        if turned { !found } else { found }
    } else {
        quiet
    }
}

// One value more. Values are kept as bits, the last in the lowest bit.
fn with_value(values: u32, value: bool) -> u32
    requires { values ≤ 65535 }
    ensures { ValueAdded value values result }
{
    if value { values * 2 + 1 } else { values * 2 }
}

// The last two values joined into one.
fn with_join(values: u32, or: bool) -> u32
    ensures { LastJoined (join_meaning or) values result }
{
    let yes = values % 2 + values / 2 % 2;
    let rest = values / 4 * 2;
    if or {
        if yes == 0 { rest } else { rest + 1 }
    } else {
        if yes == 2 { rest + 1 } else { rest }
    }
}

// The index of the node after the one at index `at`: its `next` leads over its lines.
pub fn next_index(words: &[u32], at: usize) -> usize
    requires at_in_bounds { at < length words.now / 4 }
    requires node_at { NodeAt words.now at }
    ensures { result ≡ node_end words.now at }
{
    let next = words[at * layout::RECORD_WORDS + layout::NEXT];
    if next == 0 {
        words.len() / layout::RECORD_WORDS
    } else {
        next as usize - 1
    }
}

// The values after the node at index `at`.
fn after_node(words: &[u32], at: usize, end: usize, set: u16, values: u32) -> u32
    requires node_to { NodeTo words.now at end }
    requires reading_underway { ReadingUnderway words.now set at values }
    ensures { ReadingUnderway words.now set end result }
{
    let kind = layout::Kind::from(words[at * layout::RECORD_WORDS]);
    match kind {
        layout::Kind::Policy { quiet, turned } => {
            with_value(values, policy_value(words, at, end, quiet, turned, set))
        }
        layout::Kind::And => with_join(values, false),
        layout::Kind::Or => with_join(values, true),
        layout::Kind::Line => values,
        layout::Kind::Unknown => values,
        layout::Kind::Exclusion => values,
    }
}

// What a sound listing says of the set. The crates above have had it checked.
pub fn reading(words: &[u32], set: u16) -> bool
    requires { verdict words.now ≡ answered tt }
    ensures { result ≡ says words.now set }
{
    let mut values: u32 = 0;
    let mut at: usize = 0;
    // Not a `for`: the nodes' `next` lead over their lines.
    while at < words.len() / layout::RECORD_WORDS {
        let end = next_index(words, at);
        values = after_node(words, at, end, set, values);
        at = end;
    }
    values == 1
}

pub fn decide(words: &[u32], set: u16) -> Result<bool, layout::Fault>
    ensures { listing_answer result ≡ rod_answer words.now set }
{
    layout::check(words)?;
    Ok(reading(words, set))
}

// Writes what the sound listing says of each set: 1 for yes, 0 for no.
fn answer_all(words: &[u32], sets: &[u16], answers: &mut [u8])
    requires words_value { verdict words.now ≡ answered tt }
    requires sets_len { length sets.now ≡ length answers.old }
    ensures { answers.new ≡ answers_to words.now sets.now }
{
    for (i, set) in sets.iter().enumerate() {
        answers[i] = reading(words, *set) as u8;
    }
}

// Why a traverse is refused.
#[derive(Clone, Copy)]
pub enum TraverseError {
    // The answers lent are not as many as the sets.
    Unequal,
    // The listing was declined.
    Declined(layout::Fault),
}

// The number that change request 6 gives unequal slices, for the crates above.
pub const UNEQUAL: u64 = 11;

impl From<layout::Fault> for TraverseError {
    ghost from_gives = { λ fault error. error ≡ Declined fault };

    fn from(fault: layout::Fault) -> TraverseError {
        TraverseError::Declined(fault)
    }
}

impl Refusal for TraverseError {
    ghost number_of = { error_number };

    ghost value_of = { error_value };

    fn number(&self) -> u64 {
        match self {
            TraverseError::Unequal => UNEQUAL,
            TraverseError::Declined(fault) => fault.number(),
        }
    }

    fn value(&self) -> u64 {
        match self {
            TraverseError::Unequal => 0,
            TraverseError::Declined(fault) => fault.value(),
        }
    }

    ghost few = { error_number_few };
}

impl fmt::Display for TraverseError {
    ghost output = { λ error. Some (refused_text (error_number error) (error_value error)) };

    fn fmt<W: fmt::Write>(&self, f: &mut fmt::Formatter<W>) -> fmt::Result {
        write!(f, "refused {} {}", self.number(), self.value())
    }
}

// Writes an answer for each set, and returns how many.
pub fn traverse(words: &[u32], sets: &[u16], answers: &mut [u8]) -> Result<usize, TraverseError>
    ensures { TraverseRan words.now sets.now answers.old
        result answers.new }
{
    if sets.len() != answers.len() {
        return Err(TraverseError::Unequal);
    }
    layout::check(words)?;
    answer_all(words, sets, answers);
    Ok(sets.len())
}
