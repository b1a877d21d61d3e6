// The office's checks of a listing, and of two, over all signal sets without an excluded pair: in rising order, a group
// of 1,024 sets at a time (docs/DECISIONS.md, D36). A listing is examined once and not for each group.
#![tactic(auto)]

ghost use Rattle.std.specs.Prelude.{not, cond, MatchResult, ◌≡◌, ◌≤◌, ◌<◌, eqb, get_or, Some};
ghost use Rattle.answers.specs.Answers.{result as answered};
ghost use Rattle.arith.specs.Options.{told};
ghost use Rattle.signals.specs.Sets.{present};
ghost use Rattle.blocks.specs.Blocks.{WordOf};
ghost use Rattle.layout.specs.Judgement.{verdict};
ghost use Rattle.layout.specs.Meaning.{fault_number, fault_number_few, fault_value, fault_meaning};
ghost use Rattle.groups.specs.Groups.{IsGroup, GroupOf, SoundWith};
ghost use Rattle.checks.specs.Checks.{permitted, lowest_set, chosen, differ_at, comparison};
ghost use Rattle.checks.specs.Meaning.{chosen_meaning, choice_meaning, comparison_meaning, DeclinedBy};
ghost use Rattle.checks.specs.Walking.{chosen_by, LowestIn, apart_bit, LowestInGroup, PermittedUpTo};
ghost use Rattle.checks.specs.Meaning.{outcome_text, chosen_text, which_text, compared_text, error_text};

use answers::Refusal;
use std::fmt;

// Whether a listing leaves a choice. `Choice` and `choice` in one crate are refused: they differ only in case.
#[derive(Clone, Copy)]
pub enum Outcome {
    Always,
    Never,
    // The lowest set that gives yes, and the lowest that gives no.
    Both { yes: u16, no: u16 },
}

impl fmt::Display for Outcome {
    ghost output = { λ outcome. Some (outcome_text outcome) };

    fn fmt<W: fmt::Write>(&self, f: &mut fmt::Formatter<W>) -> fmt::Result {
        match self {
            Outcome::Always => write!(f, "always"),
            Outcome::Never => write!(f, "never"),
            Outcome::Both { yes, no } => write!(f, "both {yes} {no}"),
        }
    }
}

// That, and how many sets were judged.
#[derive(Clone, Copy)]
pub struct Chosen {
    pub choice: Outcome,
    pub judged: u32,
}

impl fmt::Display for Chosen {
    ghost output = { λ chosen. Some (chosen_text chosen) };

    fn fmt<W: fmt::Write>(&self, f: &mut fmt::Formatter<W>) -> fmt::Result {
        write!(f, "{} judged {}", self.choice, self.judged)
    }
}

// One of the two listings.
#[derive(Clone, Copy)]
pub enum Which {
    First,
    Second,
}

impl fmt::Display for Which {
    ghost output = { λ which. Some (which_text which) };

    fn fmt<W: fmt::Write>(&self, f: &mut fmt::Formatter<W>) -> fmt::Result {
        match self {
            Which::First => write!(f, "first"),
            Which::Second => write!(f, "second"),
        }
    }
}

// How two listings compare.
#[derive(Clone, Copy)]
pub enum Comparison {
    Alike,
    // The lowest set where they differ, and which listing says yes there.
    Differ { set: u16, yes: Which },
}

impl fmt::Display for Comparison {
    ghost output = { λ compared. Some (compared_text compared) };

    fn fmt<W: fmt::Write>(&self, f: &mut fmt::Formatter<W>) -> fmt::Result {
        match self {
            Comparison::Alike => write!(f, "alike"),
            Comparison::Differ { set, yes } => write!(f, "set {set} {yes}"),
        }
    }
}

// Which listing was declined, and why.
#[derive(Clone, Copy)]
pub struct CompareError {
    pub listing: Which,
    pub fault: layout::Fault,
}

impl Refusal for CompareError {
    ghost number_of = { λ error. fault_number error.fault };

    ghost value_of = { λ error. fault_value error.fault };

    fn number(&self) -> u64 {
        self.fault.number()
    }

    fn value(&self) -> u64 {
        self.fault.value()
    }

    ghost few = { λ error. fault_number_few error.fault };
}

impl fmt::Display for CompareError {
    ghost output = { λ error. Some (error_text error) };

    fn fmt<W: fmt::Write>(&self, f: &mut fmt::Formatter<W>) -> fmt::Result {
        write!(f, "{} {}", self.listing, self.fault)
    }
}

// How many groups of 1,024 signal sets there are.
const GROUPS: u32 = groups::HIGHEST_GROUP + 1;

// A sound listing, with how many excluded pairs it begins with.
#[derive(Clone, Copy)]
struct Listing<'a> {
    words: &'a [u32],
    pairs: usize,
    ghost sound: { SoundWith words.now pairs },
}

impl<'a> Listing<'a> {
    // The words as a listing, if they are one.
    fn examined(words: &'a [u32]) -> Result<Listing<'a>, layout::Fault>
        ensures { MatchResult result (λ l. l.words.now ≡ words.now) (λ f. verdict words.now ≡ fault_meaning f) }
    {
        layout::check(words)?;
        Ok(Listing {
            words,
            pairs: groups::pair_count(words),
        })
    }

    // The sets of the group with an excluded pair.
    fn group_barred(self, group: u32) -> groups::Table
        requires { IsGroup group }
        ensures { GroupOf (λ set. not (permitted self.entry.words.now set)) group result }
    {
        let mut table = [0u64; groups::TABLE_WORDS];
        if self.pairs == 0 {
            return table;
        }
        groups::gather(self.words, 0, self.pairs, group, &mut table);
        groups::spread(&mut table);
        table
    }
}

// The set of a word's lowest bit.
fn lowest_in(block: u32, word: u64) -> u16
    requires block_bound { block ≤ 1023 }
    requires word_nonzero { 0 < word }
    ensures { LowestIn block word result }
{
    (blocks::BLOCK_SETS * block + u64::trailing_zeros(word)) as u16
}

// The sets that are barred by neither, and on which the two differ.
fn apart_word(barred: u64, also: u64, first: u64, second: u64) -> u64
    ensures { WordOf (apart_bit barred also first second) result }
{
    !barred & !also & (first ^ second)
}

// The lowest set of the group that is barred by neither, and on which the two differ. Both checks walk a group here.
// No struct holds a listing's two tables: no other function takes them together.
fn lowest_apart(
    barred: &groups::Table,
    also: &groups::Table,
    first: &groups::Table,
    second: &groups::Table,
    group: u32,
) -> Option<u16>
    requires { IsGroup group }
    ensures { LowestInGroup group barred.now also.now
        first.now second.now result }
{
    for k in 0..groups::TABLE_WORDS {
        let word = apart_word(barred[k], also[k], first[k], second[k]);
        if word != 0 {
            return Some(lowest_in(groups::GROUP_BLOCKS * group + k as u32, word));
        }
    }
    None
}

// What the empty set gives: the first group tells it, whatever stood there before, and it is kept through the others. Not an
// Option: after the first group it would be there always.
fn empty_gives(before: bool, said: &groups::Table, group: u32) -> bool
    ensures { result ≡ cond (eqb group 0) (present (get_or said.now 0 0) 0) before }
{
    if group == 0 { said[0] & 1 == 1 } else { before }
}

// How many of the group's sets are not barred, up to the one of place `last`, which is looked at too. Without pairs
// none is barred, and nothing has to be counted (docs/DECISIONS.md, D48).
fn permitted_up_to(barred: &groups::Table, pairs: usize, last: u32) -> u32
    requires { last ≤ 1023 }
    ensures { PermittedUpTo barred.now pairs last result }
{
    if pairs == 0 {
        return last + 1;
    }
    let full = (last / blocks::BLOCK_SETS) as usize;
    let mut count: u32 = 0;
    for k in 0..full {
        count += blocks::zeros_up_to(barred[k], blocks::LAST_PLACE);
    }
    count + blocks::zeros_up_to(barred[full], last % blocks::BLOCK_SETS)
}

// From what the empty set gives, the lowest set that gives the other answer, and how many sets were judged.
#[tactic(auto, unfolding(crate::specs::Checks::choice_of))]
fn answer(empty: bool, other: Option<u16>, judged: u32) -> Chosen
    ensures { answered (chosen_meaning result) ≡ chosen_by empty (told other) judged }
{
    let choice = match (empty, other) {
        (true, Some(set)) => Outcome::Both { yes: 0, no: set },
        (false, Some(set)) => Outcome::Both { yes: set, no: 0 },
        (true, None) => Outcome::Always,
        (false, None) => Outcome::Never,
    };
    Chosen { choice, judged }
}

// One pass. The empty set comes first and has no pair: so the pass has one of the two answers there, and the lowest set
// that does not give the same is all that is left to find.
fn sound_choice(listing: Listing) -> Chosen
    ensures { answered (chosen_meaning result) ≡ chosen listing.entry.words.now }
{
    let mut values = [[0u64; groups::TABLE_WORDS]; groups::MOST_VALUES];
    let mut empty = false;
    let mut judged: u32 = 0;
    for group in 0..GROUPS {
        let barred = listing.group_barred(group);
        groups::reading(listing.words, listing.pairs, group, &mut values);
        empty = empty_gives(empty, &values[0], group);
        // The other answer is given where the listing differs from a table of the empty set's; both bar the same sets.
        let same = [blocks::all_if(empty); groups::TABLE_WORDS];
        if let Some(set) = lowest_apart(&barred, &barred, &values[0], &same, group) {
            let last = set as u32 % groups::GROUP_SETS;
            judged += permitted_up_to(&barred, listing.pairs, last);
            return answer(empty, Some(set), judged);
        }
        judged += permitted_up_to(&barred, listing.pairs, groups::GROUP_SETS - 1);
    }
    answer(empty, None, judged)
}

pub fn choice(words: &[u32]) -> Result<Chosen, layout::Fault>
    ensures { choice_meaning result ≡ chosen words.now }
{
    let listing = Listing::examined(words)?;
    Ok(sound_choice(listing))
}

// The lowest set where the two sound listings differ.
fn lowest_difference(one: Listing, two: Listing) -> Option<u16>
    ensures { told result ≡ lowest_set (differ_at one.entry.words.now two.entry.words.now) }
{
    // No loop shared with the choice check, which also counts: nothing is told of a closure that changes what it holds.
    let mut firsts = [[0u64; groups::TABLE_WORDS]; groups::MOST_VALUES];
    let mut seconds = [[0u64; groups::TABLE_WORDS]; groups::MOST_VALUES];
    for group in 0..GROUPS {
        let barred = one.group_barred(group);
        let also = two.group_barred(group);
        groups::reading(one.words, one.pairs, group, &mut firsts);
        groups::reading(two.words, two.pairs, group, &mut seconds);
        if let Some(set) = lowest_apart(&barred, &also, &firsts[0], &seconds[0], group) {
            return Some(set);
        }
    }
    None
}

fn sound_comparison(one: Listing, two: Listing) -> Comparison
    ensures { comparison_meaning (Ok result) ≡ comparison one.entry.words.now two.entry.words.now }
{
    match lowest_difference(one, two) {
        Some(set) => {
            let yes = if rod::reading(one.words, set) {
                Which::First
            } else {
                Which::Second
            };
            Comparison::Differ { set, yes }
        }
        None => Comparison::Alike,
    }
}

fn examine(words: &[u32], listing: Which) -> Result<Listing<'_>, CompareError>
    ensures { MatchResult result (λ l. l.words.now ≡ words.now) (DeclinedBy words.now listing) }
{
    Listing::examined(words).map_err(|fault| CompareError { listing, fault })
}

// The first listing is examined fully before the second.
pub fn compare(one: &[u32], two: &[u32]) -> Result<Comparison, CompareError>
    ensures { comparison_meaning result ≡ comparison one.now two.now }
{
    let one = examine(one, Which::First)?;
    let two = examine(two, Which::Second)?;
    Ok(sound_comparison(one, two))
}
