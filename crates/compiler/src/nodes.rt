// The nodes of a condition: how many lines they have, and their records written.
// For this crate only: no other can name these functions, and each call is proved to meet its condition.
ghost use Rattle.std.specs.Prelude.{cond, ◌≡◌, ◌+◌, ◌^◌, ◌≤◌, ◌<◌, map, sum, length};
ghost use Rattle.arith.specs.Trees.{value, joining};
ghost use Rattle.layout.specs.Nodes.{node_records};
ghost use Rattle.layout.specs.Records.{join_kind};
ghost use Rattle.layout.specs.Writing.{RoomFor, put_records};
ghost use Rattle.translation.specs.Translation.{join_of, turned, quiet, listed};
ghost use Rattle.book.specs.Ranges.{ConditionInRange};
ghost use Rattle.compiler.specs.Planning.{ThresholdFits};
ghost use Rattle.compiler.specs.Searching.{lines_of};
ghost use Rattle.compiler.specs.Nodes.{ForJoin, lines_in, coded_node, CodeKept, nodes_of, most_lines, one_node};

use crate::searching::{count_lines, put_lines};
use arrayvec::ArrayVec;
use layout::{AND, OR, Record};
use text::{CODE_COUNT, Code};

// How many lines each node of a condition has: there is a code for each node.
pub type LineCounts = ArrayVec<usize, CODE_COUNT>;

// The kind of a join: for min "and" under `<` and "or" under `>=`, for max the reverse.
fn join_kind(sense: peal::Sense, code: Code<u8>) -> u32
    ensures { ForJoin code (λ m. result ≡ join_kind (join_of sense m)) }
{
    match code {
        Code::Max => match sense {
            peal::Sense::Above => OR,
            peal::Sense::AtMost => AND,
        },
        _ => match sense {
            peal::Sense::Above => AND,
            peal::Sense::AtMost => OR,
        },
    }
}

// The policy's default meets the condition.
fn is_quiet(condition: &book::Condition, policy: &book::Policy) -> bool
    ensures { result ≡ quiet condition.now.sense condition.now.threshold policy.now }
{
    let threshold = condition.threshold();
    let default = policy.default_score();
    match condition.sense() {
        peal::Sense::Above => threshold < default,
        peal::Sense::AtMost => default <= threshold,
    }
}

// Sum and max are turned under `>=`, mul and min under `<`.
fn is_turned(sense: peal::Sense, operator: peal::Operator) -> bool
    ensures { result ≡ turned sense operator }
{
    let rising = peal::rises(operator);
    match sense {
        peal::Sense::AtMost => rising,
        peal::Sense::Above => !rising,
    }
}

// A record's number if there is such a record, otherwise 0.
fn number_if(there: bool, number: usize) -> u32
    requires { number < 2 ^ 32 }
    ensures { result ≡ cond there number 0 }
{
    if there { number as u32 } else { 0 }
}

// How many lines the node of a code has.
fn node_lines(book: &book::Book, condition: &book::Condition, code: Code<u8>) -> usize
    requires { CodeKept book.now code × ThresholdFits condition.now.threshold }
    ensures { result ≡ lines_in (coded_node book.now condition.now code) }
{
    match code {
        Code::Policy(k) => {
            let policy = &book.policies()[k as usize];
            count_lines(policy, condition.threshold())
        }
        _ => 0,
    }
}

// How many lines each node of a condition has. A policy that was mentioned before is not searched again.
pub fn line_counts(book: &book::Book, condition: &book::Condition) -> LineCounts
    requires { ConditionInRange (length book.now.policies) condition.now }
    ensures { result.items ≡ map lines_in (nodes_of book.now condition.now) }
{
    let codes = condition.codes();
    let mut lines = LineCounts::new();
    for (i, code) in codes.iter().enumerate() {
        let earlier = codes[..i].iter().position(|earlier| *earlier == *code);
        let next = match earlier {
            Some(j) => lines[j],
            None => node_lines(book, condition, *code),
        };
        lines.push(next);
    }
    lines
}

// How many records a listing has, from how many exclusions there are and how many lines each node has.
pub fn count_records(exclusions: usize, lines: &[usize]) -> usize
    requires { (exclusions ≤ 16) × (length lines.now ≤ 31) × (sum lines.now ≤ most_lines) }
    ensures records { result ≡ exclusions + length lines.now + sum lines.now }
    ensures small { result < 2 ^ 31 }
{
    exclusions + lines.len() + lines.iter().sum::<usize>()
}

// A join as record `at`; `more` tells whether a node follows. `words` and `at` stay two here and below, as layout's
// `put_record` and the contract of `compile` have them.
fn put_join(sense: peal::Sense, code: Code<u8>, words: &mut [u32], at: usize, more: bool)
    requires { RoomFor at 1 words.old }
    ensures { ForJoin code
        (λ m. words.new ≡ put_records words.old at (one_node at more (joining (join_of sense m)))) }
{
    let record = Record {
        kind: join_kind(sense, code),
        mask: 0,
        lines: 0,
        next: number_if(more, at + 1),
    };
    layout::put_record(words, at, record);
}

// A mention of a policy, which has so many lines, from record `at` on; `more` tells whether a node follows.
fn put_policy(
    condition: &book::Condition,
    policy: &book::Policy,
    count: usize,
    words: &mut [u32],
    at: usize,
    more: bool,
)
    requires fits { ThresholdFits condition.now.threshold }
    requires counted { count ≡ length (lines_of condition.now.threshold policy.now) }
    requires room { RoomFor at (1 + count) words.old }
    ensures { words.new ≡ put_records words.old at
        (one_node at more (value (listed condition.now.sense condition.now.threshold policy.now))) }
{
    let turned = is_turned(condition.sense(), policy.operator());
    let record = Record {
        kind: layout::policy_kind(is_quiet(condition, policy), turned),
        mask: policy.mask() as u32,
        lines: number_if(0 < count, at + 1),
        next: number_if(more, at + 1 + count),
    };
    layout::put_record(words, at, record);
    put_lines(policy, condition.threshold(), count, words, at + 1);
}

// The node of a code, which has so many lines, from record `at` on; `more` tells whether a node follows.
fn put_node(
    book: &book::Book,
    condition: &book::Condition,
    code: Code<u8>,
    count: usize,
    words: &mut [u32],
    at: usize,
    more: bool,
)
    requires kept { CodeKept book.now code × ThresholdFits condition.now.threshold }
    requires counted { count ≡ lines_in (coded_node book.now condition.now code) }
    requires room { RoomFor at (1 + count) words.old }
    ensures { words.new ≡ put_records words.old at (one_node at more (coded_node book.now condition.now code)) }
{
    match code {
        Code::Policy(k) => {
            let policy = &book.policies()[k as usize];
            put_policy(condition, policy, count, words, at, more);
        }
        _ => put_join(condition.sense(), code, words, at, more),
    }
}

// The records of all nodes of a condition, from record `first` on; `lines` tells how many lines each of them has.
pub fn put_nodes(
    book: &book::Book,
    condition: &book::Condition,
    lines: &[usize],
    words: &mut [u32],
    first: usize,
)
    requires range { ConditionInRange (length book.now.policies) condition.now }
    requires counted { lines.now ≡ map lines_in (nodes_of book.now condition.now) }
    requires room { RoomFor first (length (node_records first (nodes_of book.now condition.now))) words.old }
    ensures { words.new ≡ put_records words.old first (node_records first (nodes_of book.now condition.now)) }
{
    let codes = condition.codes();
    let mut at = first;
    for (i, count) in lines.iter().enumerate() {
        let more = i + 1 < codes.len();
        put_node(book, condition, codes[i], *count, words, at, more);
        at += 1 + *count;
    }
}
