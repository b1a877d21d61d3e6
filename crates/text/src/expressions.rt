// Expressions of a book, read into codes.
ghost use Rattle.std.specs.Prelude.{◌≡◌, ◌≤◌, ◌<◌, [], length, drop};
ghost use Rattle.arrayvec.specs.ArrayVec.{array_vec_len};
ghost use Rattle.text.specs.Codes.{code_cells};
ghost use Rattle.text.specs.Parsing.{CanRead, JoinRead, MentionRead, LeadingRead, PairRead, CodesRead, ExpressionRead};

use crate::bytes::{begins, digits_end, has_byte};
use crate::numbers::read_natural;
use arrayvec::ArrayVec;

// The most codes that an expression of a line can have.
pub const CODE_COUNT: usize = 31;

// What an expression is kept as: a code for each node, in the order left, right, join. The number of a policy may be
// any that a line gives, or a small one where it is known to be. All bits of the code of policy 0 are zero.
#[derive(Clone, Copy, Default, PartialEq, Eq)]
pub enum Code<N> {
    Policy(N),
    #[default]
    Min,
    Max,
}

// The codes of an expression as it is read.
pub type Codes = ArrayVec<Code<u32>, CODE_COUNT>;

// How many bytes `min` and `max` have.
const JOIN_BYTES: usize = 3;

// `min` or `max` at `at`.
#[tactic(auto, unfolding(crate::specs::Parsing::JoinRead, crate::specs::Expressions::leading_join, crate::specs::Expressions::min_max_word, crate::specs::Codes::code_of))]
fn read_join(line: &[u8], at: usize) -> Option<Code<u32>>
    ensures { JoinRead (drop at line.now) result }
{
    if begins(line, at, b"min") {
        Some(Code::Min)
    } else if begins(line, at, b"max") {
        Some(Code::Max)
    } else {
        None
    }
}

// The policy number at `from`, after its `p`, put as a code after those so far. Returns where it ends.
#[tactic(auto, using(crate::proofs::ExpressionLaws::mention_ways))]
fn read_mention(line: &[u8], from: usize, codes: &mut Codes) -> Option<usize>
    requires { (from ≤ length line.now) × (array_vec_len codes.old < code_cells) }
    ensures { MentionRead line.now from codes.old.items result codes.new.items }
{
    let end = digits_end(line, from);
    let policy = read_natural(&line[from..end])?;
    codes.push(Code::Policy(policy));
    Some(end)
}

// The expression at `at`: `p` and a policy number, or `min` or `max` and a pair. Its codes are put after those so far.
#[cycle(read_leading_read_pair)]
#[tactic(auto, using(crate::proofs::ExpressionLaws::expression_ways), unfolding(crate::specs::Parsing::JoinRead, crate::specs::Parsing::PairRead))]
fn read_leading(line: &[u8], at: usize, codes: &mut Codes) -> Option<usize>
    requires { CanRead line.now at (array_vec_len codes.old) }
    ensures { LeadingRead line.now at codes.old.items result codes.new.items }
{
    if has_byte(line, at, b'p') {
        return read_mention(line, at + 1, codes);
    }
    let join = read_join(line, at)?;
    let end = read_pair(line, at + JOIN_BYTES, codes)?;
    codes.push(join);
    Some(end)
}

// The pair of expressions at `at`, with its brackets and its comma.
#[cycle(read_leading_read_pair)]
#[tactic(auto, using(crate::proofs::PairLaws::pair_ways), unfolding(crate::specs::Parsing::LeadingRead))]
fn read_pair(line: &[u8], at: usize, codes: &mut Codes) -> Option<usize>
    requires { CanRead line.now at (array_vec_len codes.old) }
    ensures { PairRead line.now at codes.old.items result codes.new.items }
{
    if !has_byte(line, at, b'(') {
        return None;
    }
    let comma = read_leading(line, at + 1, codes)?;
    if !has_byte(line, comma, b',') {
        return None;
    }
    let end = read_leading(line, comma + 1, codes)?;
    if !has_byte(line, end, b')') {
        return None;
    }
    Some(end + 1)
}

// Whether an expression stands from `at` to the line's end: its codes are put into the lent vector, which is not moved
// then, as one that is returned is.
#[tactic(auto, using(crate::proofs::ExpressionLaws::whole_ways), unfolding(crate::specs::Parsing::LeadingRead))]
pub fn read_codes(line: &[u8], at: usize, codes: &mut Codes) -> bool
    requires can { CanRead line.now at 0 }
    requires none { codes.old.items ≡ [] }
    ensures { CodesRead line.now at result codes.new.items }
{
    let Some(end) = read_leading(line, at, codes) else {
        return false;
    };
    end == line.len()
}

// The expression that stands from `at` to the line's end.
#[tactic(auto, unfolding(crate::specs::Parsing::CodesRead, crate::specs::Parsing::ExpressionRead))]
pub fn read_expression(line: &[u8], at: usize) -> Option<Codes>
    requires { CanRead line.now at 0 }
    ensures { ExpressionRead line.now at result }
{
    let mut codes = Codes::new();
    if !read_codes(line, at, &mut codes) {
        return None;
    }
    Some(codes)
}
