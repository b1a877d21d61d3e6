// Which record of a listing breaks the layout first, if one does.
ghost use Rattle.std.specs.Prelude.{◌≡◌, ◌+◌, ◌*◌, ◌≤◌, length};
ghost use Rattle.layout.specs.Records.{kinds};
ghost use Rattle.layout.specs.Judgement.{if_any, if_line, next_node, verdict};
ghost use Rattle.layout.specs.Meaning.{listing_answer};
ghost use Rattle.layout.specs.Steps.{record_meaning, records_from, so_far_meaning, step_meaning, policy_step, line_step, join_step, exclusion_step, step_at, YesPasses, AfterLines};

use crate::Fault;
use crate::records::{Kind, LINE, RECORD_WORDS, Record, record_at};

// How many policies a listing may have.
const MOST_POLICIES: usize = 16;

// How many excluded pairs it may begin with.
const MOST_EXCLUSIONS: usize = 16;

// How many values a join takes; it leaves one.
const JOINED: usize = 2;

// What stands above a record: the mask of the policy that a line here belongs to, if there is one; the values to be
// taken; the policies.
#[derive(Clone, Copy)]
struct SoFar {
    policy_mask: Option<u16>,
    values: usize,
    policies: usize,
}

// A step over a record gives what stands above the next one, or None where the record breaks the layout.

// A policy whose words must name the record `line` as its first line and `node` as the next node.
#[tactic(auto, unfolding(crate::specs::Computing::steps_compute))]
fn policy_step(r: Record, above: SoFar, line: usize, node: usize) -> Option<SoFar>
    requires { above.values ≤ above.policies }
    ensures { step_meaning result ≡ policy_step (record_meaning r) (so_far_meaning above) line node }
{
    let mask = u16::try_from(r.mask).ok()?;
    if r.leads_to(line, node) && above.policies < MOST_POLICIES {
        Some(SoFar {
            policy_mask: Some(mask),
            values: above.values + 1,
            policies: above.policies + 1,
        })
    } else {
        None
    }
}

// A line whose set must lie inside its policy's mask, and whose words must name the record `line` as the next.
#[tactic(auto, unfolding(crate::specs::Computing::steps_compute))]
fn line_step(r: Record, above: SoFar, line: usize) -> Option<SoFar>
    ensures { step_meaning result ≡ line_step (record_meaning r) (so_far_meaning above) line }
{
    let inside = above
        .policy_mask
        .is_some_and(|mask| signals::lies_inside(r.mask, mask));
    if inside && r.leads_to(0, line) {
        Some(above)
    } else {
        None
    }
}

// A join whose words must name the record `after` as the next.
#[tactic(auto, unfolding(crate::specs::Computing::steps_compute))]
fn join_step(r: Record, above: SoFar, after: usize) -> Option<SoFar>
    ensures { step_meaning result ≡ join_step (record_meaning r) (so_far_meaning above) after }
{
    if r.mask == 0 && r.leads_to(0, after) && above.values >= JOINED {
        Some(SoFar {
            policy_mask: None,
            values: above.values - 1,
            ..above
        })
    } else {
        None
    }
}

// Record n, a pair of signals that never occur together, whose words must name the record `after` as the next; 0 if
// there is none.
#[tactic(auto, unfolding(crate::specs::Computing::steps_compute))]
fn exclusion_step(r: Record, above: SoFar, n: usize, after: usize) -> Option<SoFar>
    ensures { step_meaning result ≡ exclusion_step n (record_meaning r) (so_far_meaning above) after }
{
    if above.policies == 0
        && n <= MOST_EXCLUSIONS
        && signals::is_pair(r.mask)
        && r.leads_to(0, after)
        && after != 0
    {
        Some(SoFar {
            policy_mask: None,
            ..above
        })
    } else {
        None
    }
}

// The number of the record at index i if it is there and is a line, else 0, as in a record's words.
#[tactic(auto, using(crate::proofs::Places::places))]
fn if_line(words: &[u32], i: usize) -> usize
    ensures { result ≡ if_line (kinds (records_from words.now i)) (i + 1) }
{
    if i < words.len() / RECORD_WORDS && words[i * RECORD_WORDS] == LINE {
        i + 1
    } else {
        0
    }
}

// The number of the record at index i if it is there, else 0 as above. One function for both would take the test as a closure.
#[tactic(auto, using(crate::proofs::Places::places))]
fn if_any(words: &[u32], i: usize) -> usize
    ensures { result ≡ if_any (kinds (records_from words.now i)) (i + 1) }
{
    if i < words.len() / RECORD_WORDS {
        i + 1
    } else {
        0
    }
}

// The number of the first record from index `from` on that is no line, or 0 as above if there is none.
#[tactic(auto, using(crate::proofs::Places::places))]
fn next_node(words: &[u32], from: usize) -> usize
    ensures { result ≡ next_node (from + 1) (kinds (records_from words.now from)) }
{
    for i in from..words.len() / RECORD_WORDS {
        if words[i * RECORD_WORDS] != LINE {
            return i + 1;
        }
    }
    0
}

// Yes only for a record that is a sound line of a policy of this mask. One that gets a no is judged as every other
// record.
fn is_sound_line(words: &[u32], i: usize, mask: u16) -> bool
    requires { i * 4 + 4 ≤ length words.now }
    ensures { YesPasses words.now i mask result }
{
    let r = record_at(words, i);
    r.kind == LINE && r.leads_to(0, if_line(words, i + 1)) && signals::lies_inside(r.mask, mask)
}

// An index after the record at index `node`, with nothing but sound lines of it between.
// Most records are lines: here each is judged, and found to be no node, in one reading.
fn after_lines(words: &[u32], node: usize) -> usize
    requires { node * 4 + 4 ≤ length words.now }
    ensures { AfterLines words.now node result }
{
    let r = record_at(words, node);
    // Only a policy has lines, and only below a mask of 16 bits are they sound.
    let Kind::Policy { .. } = Kind::from(r.kind) else {
        return node + 1;
    };
    let Ok(mask) = u16::try_from(r.mask) else {
        return node + 1;
    };
    let count = words.len() / RECORD_WORDS;
    for i in node + 1..count {
        if !is_sound_line(words, i, mask) {
            return i;
        }
    }
    count
}

// The judgement of the record at index i; `end` is where its sound lines end.
#[tactic(auto, using(crate::proofs::JudgementLaws::followed), unfolding(crate::specs::Computing::steps_compute))]
fn step_at(words: &[u32], i: usize, above: SoFar, end: usize) -> Option<SoFar>
    requires { (i * 4 + 4 ≤ length words.now) × (above.values ≤ above.policies) × AfterLines words.now i end }
    ensures { step_meaning result ≡ step_at words.now i (so_far_meaning above) }
{
    let r = record_at(words, i);
    let kind = Kind::from(r.kind);
    match kind {
        Kind::Line => line_step(r, above, if_line(words, i + 1)),
        Kind::And | Kind::Or => join_step(r, above, if_any(words, i + 1)),
        Kind::Policy { .. } => policy_step(r, above, if_line(words, i + 1), next_node(words, end)),
        Kind::Exclusion => exclusion_step(r, above, i + 1, if_any(words, i + 1)),
        Kind::Unknown => None,
    }
}

#[tactic(auto, using(crate::proofs::JudgementLaws::endings))]
pub fn check(words: &[u32]) -> Result<(), Fault>
    ensures { listing_answer result ≡ verdict words.now }
{
    if words.is_empty() || words.len() % RECORD_WORDS != 0 {
        return Err(Fault::Length);
    }
    let mut above = SoFar {
        policy_mask: None,
        values: 0,
        policies: 0,
    };
    let mut i = 0;
    // No `for`: a turn may take a policy and its lines.
    while i < words.len() / RECORD_WORDS {
        let end = after_lines(words, i);
        above = step_at(words, i, above, end).ok_or(Fault::Record(i + 1))?;
        i = end;
    }
    if above.values != 1 {
        return Err(Fault::Record(i));
    }
    Ok(())
}
