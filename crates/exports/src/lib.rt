// The calls for programs in C or Rust, which link this code by the crate `exports_c`; include/cerahupo.h is their header.
// Each takes every input, and returns its answer as one number, since that is the C interface. Only compiling writes the
// lent words, only the score's call the lent number, and only a traverse the lent answers.
#![tactic(auto)]

ghost use Rattle.std.specs.Prelude.{◌≡◌, ◌<◌, MatchResult, IfErr};
ghost use Rattle.layout.specs.Records.{one_if};
ghost use Rattle.rod.specs.Reading.{rod_answer};
ghost use Rattle.checks.specs.Checks.{chosen, comparison};
ghost use Rattle.checks.specs.Meaning.{outcome_meaning};
ghost use Rattle.book.specs.Books.{checked};
ghost use Rattle.score.specs.Decisions.{scored_answer};
ghost use Rattle.exports.specs.Packing.{from_bit48, value_end, as_one, packed, counts_value, ScoreTold, CompilingTold};
ghost use Rattle.exports.specs.Packing.{TraverseTold, choice_value, chosen_value, packed_comparison};

use answers::Refusal;
use checks::{Comparison, Outcome, Which};

// The weight of a value in the number: it begins at bit 5, after the code.
const FROM_BIT_5: u64 = 1 << 5;

// In a value: the weight of what stands from bit 16 of the number on.
const FROM_BIT_16: u64 = (1 << 16) / FROM_BIT_5;

// The same from bit 32 on.
const FROM_BIT_32: u64 = (1 << 32) / FROM_BIT_5;

// And from bit 48 on.
const FROM_BIT_48: u64 = (1 << 48) / FROM_BIT_5;

// Beyond every value: 64 bits, less those of the code.
const VALUE_END: u64 = 1 << 59;

// So far below zero is the lowest score, in hundredths; the value of a score counts from there.
const BELOW_ZERO: i64 = 10000;

// By so much the code of a refusal is higher where it is the second listing's.
const OF_SECOND: u64 = 16;

// A result by its value, which has all its bits from bit 5 on if it is below 2 to the 59.
fn accepted(value: u64) -> u64
    requires { value < value_end }
    ensures { result ≡ as_one 0 value }
{
    FROM_BIT_5 * value
}

// A refusal by its number, and the line or record beside it.
fn refusal<E: Refusal + Copy>(error: E) -> u64
    requires { E.value_of error < value_end }
    ensures { result ≡ as_one (E.number_of error) (E.value_of error) }
{
    error.number() + FROM_BIT_5 * error.value()
}

// A yes or no: 1 for yes.
fn told<E: Refusal + Copy>(answer: Result<bool, E>) -> u64
    requires { IfErr answer (λ error. E.value_of error < value_end) }
    ensures { MatchResult answer (λ yes. result ≡ as_one 0 (one_if yes))
        (λ error. result ≡ as_one (E.number_of error) (E.value_of error)) }
{
    match answer {
        Ok(yes) => accepted(yes as u64),
        Err(error) => refusal(error),
    }
}

pub fn cerahupo_check(bytes: &[u8]) -> u64
    ensures { result ≡ packed counts_value (checked bytes.now) }
{
    match book::check(bytes) {
        Ok(counts) => accepted(counts.policies as u64 + FROM_BIT_16 * counts.conditions as u64),
        Err(error) => refusal(error),
    }
}

pub fn cerahupo_decide(bytes: &[u8], condition: u32, set: u16) -> u64
    ensures { result ≡ packed one_if (scored_answer bytes.now condition set) }
{
    told(score::decide(bytes, condition, set))
}

pub fn cerahupo_score(bytes: &[u8], condition: u32, set: u16, remainder: &mut u64) -> u64
    ensures { ScoreTold bytes.now condition set remainder.old result remainder.new }
{
    match score::evaluate(bytes, condition, set) {
        Ok(exact) => {
            *remainder = exact.remainder;
            accepted((exact.hundredths + BELOW_ZERO) as u64)
        }
        Err(error) => refusal(error),
    }
}

pub fn cerahupo_compile(bytes: &[u8], condition: u32, words: &mut [u32]) -> u64
    ensures { CompilingTold bytes.now condition words.old result words.new }
{
    match compiler::compile(bytes, condition, words) {
        Ok(records) => accepted(records as u64),
        Err(error) => refusal(error),
    }
}

pub fn cerahupo_read(words: &[u32], set: u16) -> u64
    ensures { result ≡ packed one_if (rod_answer words.now set) }
{
    told(rod::decide(words, set))
}

pub fn cerahupo_traverse(words: &[u32], sets: &[u16], answers: &mut [u8]) -> u64
    ensures { TraverseTold words.now sets.now answers.old
        result answers.new }
{
    match rod::traverse(words, sets, answers) {
        Ok(count) => accepted(count as u64 % VALUE_END),
        Err(error) => refusal(error),
    }
}

// A choice by its value: both, by the lowest set that gives yes and the lowest that gives no.
fn choice_value(choice: Outcome) -> u64
    ensures value { result ≡ choice_value (outcome_meaning choice) }
    ensures end { result < from_bit48 }
{
    match choice {
        Outcome::Always => 0,
        Outcome::Never => 1,
        Outcome::Both { yes, no } => 2 + FROM_BIT_16 * yes as u64 + FROM_BIT_32 * no as u64,
    }
}

pub fn cerahupo_choice(words: &[u32]) -> u64
    ensures { result ≡ packed chosen_value (chosen words.now) }
{
    match checks::choice(words) {
        Ok(chosen) => {
            let value = choice_value(chosen.choice);
            accepted(value + FROM_BIT_48 * (chosen.judged - 1) as u64)
        }
        Err(error) => refusal(error),
    }
}

pub fn cerahupo_compare(one: &[u32], two: &[u32]) -> u64
    ensures { result ≡ packed_comparison (comparison one.now two.now) }
{
    match checks::compare(one, two) {
        Ok(Comparison::Alike) => accepted(0),
        Ok(Comparison::Differ { set, yes }) => match yes {
            Which::First => accepted(3 + FROM_BIT_16 * set as u64),
            Which::Second => accepted(1 + FROM_BIT_16 * set as u64),
        },
        Err(error) => match error.listing {
            Which::First => refusal(error),
            Which::Second => refusal(error) + OF_SECOND,
        },
    }
}
