// One line of a book, by its fields.
ghost use Rattle.std.specs.Prelude.{◌≡◌, [], ◌∷◌, MatchOption};
ghost use Rattle.text.specs.Text.{fields};
ghost use Rattle.text.specs.Forms.{form_of, form};
ghost use Rattle.text.specs.LineMeaning.{FirstField, Means, MeansAnywhere, FourMean};

use super::bytes::field_end;
use super::keywords::{read_operator, read_sense};
use super::numbers::{read_natural, read_number};

// What a line says. A condition's expression is not read yet: it stands from the place `from` to the line's end.
#[derive(Clone, Copy)]
pub enum Line {
    Policy {
        operator: peal::Operator,
        default: i32,
    },
    BarePolicy {
        operator: peal::Operator,
    },
    Rule {
        signal: u32,
        score: i32,
    },
    Condition {
        sense: peal::Sense,
        threshold: i32,
        from: usize,
    },
    Exclusion {
        first: u32,
        second: u32,
    },
    OldZero,
}

// `o`.
#[tactic(auto, using(crate::proofs::WordLaws::words), unfolding(crate::specs::Forms::form_of))]
fn one_field(kind: &[u8]) -> Option<Line>
    ensures { MeansAnywhere result (form_of (kind.now ∷ [])) }
{
    match kind {
        b"o" => Some(Line::OldZero),
        _ => None,
    }
}

// `p OP`.
#[tactic(auto, using(crate::proofs::WordLaws::words), unfolding(crate::specs::Forms::form_of))]
fn two_fields(kind: &[u8], second: &[u8]) -> Option<Line>
    ensures { MeansAnywhere result (form_of (kind.now ∷ second.now ∷ [])) }
{
    match kind {
        b"p" => Some(Line::BarePolicy {
            operator: read_operator(second)?,
        }),
        _ => None,
    }
}

// `p OP D`, `r S V`, or `x A B`.
#[tactic(auto, using(crate::proofs::WordLaws::words), unfolding(crate::specs::Forms::form_of))]
fn three_fields(kind: &[u8], second: &[u8], third: &[u8]) -> Option<Line>
    ensures { MeansAnywhere result (form_of (kind.now ∷ second.now ∷ third.now ∷ [])) }
{
    match kind {
        b"p" => Some(Line::Policy {
            operator: read_operator(second)?,
            default: read_number(third)?,
        }),
        b"r" => Some(Line::Rule {
            signal: read_natural(second)?,
            score: read_number(third)?,
        }),
        b"x" => Some(Line::Exclusion {
            first: read_natural(second)?,
            second: read_natural(third)?,
        }),
        _ => None,
    }
}

// `c T < E`, or `c T >= E`, where E is what stands from `from` on: after these three fields and a space after each.
#[tactic(auto, using(crate::proofs::FieldLaws::read_fields), unfolding(crate::specs::Forms::form_of))]
fn four_fields(kind: &[u8], second: &[u8], third: &[u8], from: usize) -> Option<Line>
    ensures { FourMean kind.now second.now third.now from result }
{
    match kind {
        b"c" => Some(Line::Condition {
            threshold: read_number(second)?,
            sense: read_sense(third)?,
            from,
        }),
        _ => None,
    }
}

// The first field, and what stands after its space; nothing where there is no space.
#[tactic(auto, using(crate::proofs::FieldLaws::first_fields))]
fn first_field(line: &[u8]) -> Option<(&[u8], &[u8])>
    ensures { MatchOption result (fields line.now ≡ line.now ∷ []) (λ p. FirstField line.now p.0.now p.1.now) }
{
    let end = field_end(line);
    if end == line.len() {
        None
    } else {
        Some((&line[..end], &line[end + 1..]))
    }
}

// A line without its end, by how many fields it has. A condition's expression begins after six bytes at least, which
// bounds how many codes it can have.
pub fn read_line(line: &[u8]) -> Option<Line>
    ensures { Means line.now result (form line.now) }
{
    let Some((kind, from_second)) = first_field(line) else {
        return one_field(line);
    };
    let Some((second, from_third)) = first_field(from_second) else {
        return two_fields(kind, from_second);
    };
    let Some((third, rest)) = first_field(from_third) else {
        return three_fields(kind, second, from_third);
    };
    match first_field(rest) {
        None => four_fields(kind, second, third, line.len() - rest.len()),
        Some(_) => None,
    }
}
