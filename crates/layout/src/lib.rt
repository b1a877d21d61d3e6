// The listing part: the words of a listing, which record breaks the layout first, and the writing of records.
// `check` is for every caller; the other public items are for the crates above.
#![tactic(auto)]

mod judging;
mod records;
mod writing;

ghost use Rattle.std.specs.Prelude.{Some};
ghost use Rattle.answers.specs.Answers.{refused_text};
ghost use Rattle.layout.specs.Meaning.{fault_number, fault_number_few, fault_value};

use answers::Refusal;
pub use judging::check;
pub use records::{AND, EXCLUSION, Kind, MASK, NEXT, OR, RECORD_WORDS, Record, policy_kind};
use std::fmt;
pub use writing::{put_line, put_record};

// Why a listing is declined.
#[derive(Clone, Copy, PartialEq, Eq, Debug)]
pub enum Fault {
    // The listing has no words, or not a multiple of four.
    Length,
    // The number of the first record that breaks the layout; of the last, if values are left over.
    Record(usize),
}

// The numbers that document 01 gives the two, for the crates above.
pub const BAD_LENGTH: u64 = 9;

pub const BAD_RECORD: u64 = 10;

impl Refusal for Fault {
    ghost number_of = { fault_number };

    ghost value_of = { fault_value };

    fn number(&self) -> u64 {
        match self {
            Fault::Length => BAD_LENGTH,
            Fault::Record(_) => BAD_RECORD,
        }
    }

    fn value(&self) -> u64 {
        match self {
            Fault::Length => 0,
            Fault::Record(number) => *number as u64,
        }
    }

    ghost few = { fault_number_few };
}

impl fmt::Display for Fault {
    ghost output = { λ fault. Some (refused_text (fault_number fault) (fault_value fault)) };

    fn fmt<W: fmt::Write>(&self, f: &mut fmt::Formatter<W>) -> fmt::Result {
        write!(f, "refused {} {}", self.number(), self.value())
    }
}
