// Books of evidence policies, as text. `check` is the call, and takes every byte string. The modules are this crate's
// own; of their functions `ask` is for the crates above, which are handed the book that it read.
#![tactic(auto)]

mod acceptance;
mod adding;
mod books;
mod conditions;
mod policies;
mod reading;

ghost use Rattle.std.specs.Prelude.{◌≡◌, ◌<◌, Some};
ghost use Rattle.book.specs.Meaning.{reason_number, refusal_number, refusal_value, reason_number_few};
ghost use Rattle.book.specs.Meaning.{declined_number, declined_value, declined_number_few};
ghost use Rattle.book.specs.declared.Declined.TheVariants.{Refused};
ghost use Rattle.answers.specs.Answers.{refused_text};
ghost use Rattle.book.specs.Meaning.{counts_text};

pub use books::Book;
pub use conditions::Condition;
pub use policies::{MOST_RULES, Policy, Rules};
pub use reading::{ask, check};
use std::fmt;

// Why a line is refused, in the order in which a line is tried.
#[derive(Clone, Copy, PartialEq, Eq)]
pub enum Reason {
    // The book or the line is too long.
    TooLong,
    // The line has no form, or is the last one and has no end.
    NoForm,
    OutOfPlace,
    // One policy, condition, mul rule or exclusion too many.
    TooMany,
    // A number is out of range, there is no such policy, or the two signals of an exclusion are the same.
    OutOfRange,
    // The signal is already in this policy, or the exclusion already in the book.
    Repeated,
}

impl Reason {
    // The number that document 01 gives it.
    pub fn number(self) -> u64
        ensures told { result ≡ reason_number self }
        ensures few { result < 16 }
    {
        match self {
            Reason::TooLong => 1,
            Reason::NoForm => 2,
            Reason::OutOfPlace => 3,
            Reason::TooMany => 4,
            Reason::OutOfRange => 5,
            Reason::Repeated => 6,
        }
    }
}

// The same, as a function for the crates above.
pub fn reason_number(reason: Reason) -> u64
    ensures { (result ≡ reason_number reason) × (result < 16) }
{
    reason.number()
}

// Where a book is refused: the line counts from 1, and is 0 for the whole book.
#[derive(Clone, Copy)]
pub struct Refusal {
    pub reason: Reason,
    pub line: usize,
}

impl answers::Refusal for Refusal {
    ghost number_of = { refusal_number };

    ghost value_of = { refusal_value };

    fn number(&self) -> u64 {
        self.reason.number()
    }

    fn value(&self) -> u64 {
        self.line as u64
    }

    ghost few = { λ r. reason_number_few r.reason };
}

impl fmt::Display for Refusal {
    ghost output = { λ refusal. Some (refused_text (refusal_number refusal) (refusal_value refusal)) };

    fn fmt<W: fmt::Write>(&self, f: &mut fmt::Formatter<W>) -> fmt::Result {
        write!(f, "refused {} {}", self.reason.number(), self.line)
    }
}

// How many policies and conditions an accepted book has.
#[derive(Clone, Copy)]
pub struct Counts {
    pub policies: usize,
    pub conditions: usize,
}

impl fmt::Display for Counts {
    ghost output = { λ counts. Some (counts_text counts) };

    fn fmt<W: fmt::Write>(&self, f: &mut fmt::Formatter<W>) -> fmt::Result {
        write!(f, "accepted {} {}", self.policies, self.conditions)
    }
}

// The number that document 01 gives a missing condition, for the crates above.
pub const NO_CONDITION: u64 = 7;

// Why a condition that was asked for is not there.
#[derive(Clone, Copy)]
pub enum Declined {
    // The book was refused.
    Refused(Refusal),
    // The book has no condition of that number.
    NoCondition,
}

impl From<Refusal> for Declined {
    ghost from_gives = { λ refusal declined. declined ≡ Refused refusal };

    fn from(refusal: Refusal) -> Declined {
        Declined::Refused(refusal)
    }
}

impl answers::Refusal for Declined {
    ghost number_of = { declined_number };

    ghost value_of = { declined_value };

    fn number(&self) -> u64 {
        match self {
            Declined::Refused(refusal) => refusal.number(),
            Declined::NoCondition => NO_CONDITION,
        }
    }

    fn value(&self) -> u64 {
        match self {
            Declined::Refused(refusal) => refusal.value(),
            Declined::NoCondition => 0,
        }
    }

    ghost few = { declined_number_few };
}

impl fmt::Display for Declined {
    ghost output = { λ declined. Some (refused_text (declined_number declined) (declined_value declined)) };

    fn fmt<W: fmt::Write>(&self, f: &mut fmt::Formatter<W>) -> fmt::Result {
        let number = answers::Refusal::number(self);
        let value = answers::Refusal::value(self);
        write!(f, "refused {number} {value}")
    }
}
