// The records of a listing: their words, and the kinds.
ghost use Rattle.std.specs.Prelude.{◌≡◌, ◌+◌, ◌*◌, ◌≤◌, ◌&&◌, eqb, length};
ghost use Rattle.layout.specs.Records.{kind_of, policy_kind};
ghost use Rattle.layout.specs.Steps.{kind_meaning, record_meaning, record_at};

// How many words a record has: its kind comes first.
pub const RECORD_WORDS: usize = 4;

// The mask comes next: a signal set.
pub const MASK: usize = 1;

// Then the number of a policy's first line; 0 if it has none.
pub const LINES: usize = 2;

// Then the number of the record that is read next; 0 if there is none.
pub const NEXT: usize = 3;

// The numbers of kinds are document 01's, in the words of a listing; `Kind` is what the code goes by.
// The kind of a record that joins two values by "and".
pub const AND: u32 = 2;

// By "or".
pub const OR: u32 = 3;

// A line of a policy.
pub const LINE: u32 = 4;

// A pair of signals that never occur together.
pub const EXCLUSION: u32 = 5;

// A policy that is neither quiet nor turned.
const POLICY: u32 = 16;

// Added if it is quiet.
const QUIET: u32 = 1;

// Added if it is turned.
const TURNED: u32 = 2;

// A policy that is both.
const LAST_POLICY: u32 = POLICY + QUIET + TURNED;

// What a record is by its first word.
#[derive(Clone, Copy, PartialEq, Eq, Debug)]
pub enum Kind {
    Line,
    And,
    Or,
    Policy { quiet: bool, turned: bool },
    Exclusion,
    Unknown,
}

impl From<u32> for Kind {
    ghost from_gives = { λ number kind. kind_meaning kind ≡ kind_of number };

    #[tactic(auto, unfolding(crate::specs::Computing::kinds_compute))]
    fn from(number: u32) -> Kind {
        match number {
            LINE => Kind::Line,
            AND => Kind::And,
            OR => Kind::Or,
            EXCLUSION => Kind::Exclusion,
            POLICY..=LAST_POLICY => Kind::Policy {
                quiet: number & QUIET != 0,
                turned: number & TURNED != 0,
            },
            _ => Kind::Unknown,
        }
    }
}

// The kind of a policy. No `From<Kind>`: `Kind::Unknown` has no number.
#[tactic(auto, unfolding(crate::specs::Computing::kinds_compute))]
pub fn policy_kind(quiet: bool, turned: bool) -> u32
    ensures { result ≡ policy_kind quiet turned }
{
    POLICY + QUIET * u32::from(quiet) + TURNED * u32::from(turned)
}

// A record's four words.
#[derive(Clone, Copy, PartialEq, Eq, Debug)]
pub struct Record {
    pub kind: u32,
    pub mask: u32,
    pub lines: u32,
    pub next: u32,
}

impl Record {
    // Its last two words name these records: the first line, and what is read next.
    pub(crate) fn leads_to(self, line: usize, next: usize) -> bool
        ensures { result ≡ (eqb self.lines line && eqb self.next next) }
    {
        self.lines as usize == line && self.next as usize == next
    }
}

// The record at index i, of number i + 1.
pub fn record_at(words: &[u32], i: usize) -> Record
    requires { i * 4 + 4 ≤ length words.now }
    ensures { record_meaning result ≡ record_at words.now i }
{
    let at = i * RECORD_WORDS;
    Record {
        kind: words[at],
        mask: words[at + MASK],
        lines: words[at + LINES],
        next: words[at + NEXT],
    }
}
