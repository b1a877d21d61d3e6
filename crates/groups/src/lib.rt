// What a sound listing says of 1,024 sets at once. A group is 16 blocks, the sets from 1024 * group on, and a table has
// a word for each block. The functions are for the crates above, and allocate nothing.
#![tactic(auto)]

ghost use Rattle.std.specs.Prelude.{ℕ, ◌||◌, ◌≡◌, ◌-◌, ◌/◌, ◌%◌, ◌<◌, eqb, get_or};
ghost use Rattle.signals.specs.Sets.{present, inside, overlap};
ghost use Rattle.blocks.specs.Blocks.{WordOf};
ghost use Rattle.rod.specs.Reading.{some_line, joined};
ghost use Rattle.rod.specs.Values.{join_meaning, NodeTo};
ghost use Rattle.groups.specs.Groups.{IsGroup, GroupOf, masks_from, MasksAt, CanGather, pair_count, SoundGroup, SetAndGroup, Added, Gathered, BlockSignal, Spread, AllSpread};
ghost use Rattle.groups.specs.Values.{SixteenTables, TwoValues, policy_bit, WordsPut, Said, JoinPut, PolicyHere, GroupUnderway, GroupRead};

// How many blocks a group has.
pub const GROUP_BLOCKS: u32 = 16;

// A word for each of them.
pub const TABLE_WORDS: usize = GROUP_BLOCKS as usize;

pub type Table = [u64; TABLE_WORDS];

// A listing has at most so many values at a time.
pub const MOST_VALUES: usize = 16;

// Each value is a table. How many there are is no field: `checks`, which lends them, reads the first alone.
pub type Values = [Table; MOST_VALUES];

// How many sets a group has.
pub const GROUP_SETS: u32 = GROUP_BLOCKS * blocks::BLOCK_SETS;

// How many signals tell a group's sets apart: the lowest.
const GROUP_SIGNALS: u32 = 10;

// The last group: it has all of the six highest signals. A group is a number, since `checks` goes over them by `for`.
pub const HIGHEST_GROUP: u32 = signals::HIGHEST_SET / GROUP_SETS;

// How many excluded pairs the listing begins with.
pub fn pair_count(words: &[u32]) -> usize
    ensures { result ≡ pair_count words.now }
{
    for i in 0..words.len() / layout::RECORD_WORDS {
        if words[i * layout::RECORD_WORDS] != layout::EXCLUSION {
            return i;
        }
    }
    words.len() / layout::RECORD_WORDS
}

// The mask has none of the six highest signals that the group lacks.
fn is_within(mask: u32, group: u32) -> bool
    requires { SetAndGroup mask group }
    ensures { result ≡ inside (mask / 1024) group }
{
    mask & (HIGHEST_GROUP - group) * GROUP_SETS == 0
}

// If the group has the mask's six highest signals, its set with just the mask's ten lowest is put into the table.
fn add_mask(table: &mut Table, mask: u32, group: u32)
    requires { SetAndGroup mask group }
    ensures { Added mask group table.old table.new }
{
    if is_within(mask, group) {
        let marked: u64 = 1 << (mask % blocks::BLOCK_SETS);
        let k = (mask / blocks::BLOCK_SETS % GROUP_BLOCKS) as usize;
        table[k] = table[k] | marked;
    }
}

// Records are gathered so many at a turn.
const TURN_RECORDS: usize = 4;

// Of four records in a row the mask of the second.
const SECOND_MASK: usize = layout::RECORD_WORDS + layout::MASK;

// Of the third.
const THIRD_MASK: usize = 2 * layout::RECORD_WORDS + layout::MASK;

// Of the fourth.
const FOURTH_MASK: usize = 3 * layout::RECORD_WORDS + layout::MASK;

// How many words the four have.
const FOUR_RECORDS: usize = TURN_RECORDS * layout::RECORD_WORDS;

// The masks of the records from `from` up to `end` are put into the table, four at a turn, which is faster than one
// (docs/DECISIONS.md, D37).
fn gather_fours(words: &[u32], from: usize, end: usize, group: u32, table: &mut Table)
    requires can_gather { CanGather words.now from end group }
    requires from_value { (end - from) % 4 ≡ 0 }
    ensures { Gathered words.now from end group table.old table.new }
{
    // By the turn: `step_by` was tried and took half as long again, `chunks_exact` a tenth longer.
    for turn in 0..(end - from) / TURN_RECORDS {
        let place = from * layout::RECORD_WORDS + turn * FOUR_RECORDS;
        add_mask(table, words[place + layout::MASK], group);
        add_mask(table, words[place + SECOND_MASK], group);
        add_mask(table, words[place + THIRD_MASK], group);
        add_mask(table, words[place + FOURTH_MASK], group);
    }
}

// The masks of the records from index `from` up to `end` are put into the table, one at a turn.
fn gather_rest(words: &[u32], from: usize, end: usize, group: u32, table: &mut Table)
    requires { CanGather words.now from end group }
    ensures { Gathered words.now from end group table.old table.new }
{
    for i in from..end {
        add_mask(table, words[i * layout::RECORD_WORDS + layout::MASK], group);
    }
}

// The masks of the records from index `from` up to `end` are put into the table; by indices, as `checks` has them.
pub fn gather(words: &[u32], from: usize, end: usize, group: u32, table: &mut Table)
    requires { CanGather words.now from end group }
    ensures { Gathered words.now from end group table.old table.new }
{
    let rest = end - (end - from) % TURN_RECORDS;
    gather_fours(words, from, rest, group, table);
    gather_rest(words, rest, end, group, table);
}

// One of the six lowest signals is spread: within each word.
fn spread_low(table: &mut Table, signal: u32)
    requires { signal < 6 }
    ensures { Spread signal table.old table.new }
{
    for word in table.iter_mut() {
        *word = blocks::spread(*word, signal);
    }
}

// One of the signals 6 to 9 is spread: from word to word, so by other code than within a word.
fn spread_high(table: &mut Table, signal: u32)
    requires { BlockSignal signal }
    ensures { Spread signal table.old table.new }
{
    let weight: usize = 1 << (signal - 6);
    for k in 0..TABLE_WORDS {
        table[k] = table[k] | table[k - (k & weight)];
    }
}

// Each set gets what is told of the sets inside it.
pub fn spread(table: &mut Table)
    ensures { AllSpread table.old table.new }
{
    // Six calls: a `for` was tried and took a twentieth longer for few lines, as it writes the table for each signal.
    spread_low(table, 0);
    spread_low(table, 1);
    spread_low(table, 2);
    spread_low(table, 3);
    spread_low(table, 4);
    spread_low(table, 5);
    for signal in blocks::BLOCK_SIGNALS..GROUP_SIGNALS {
        spread_high(table, signal);
    }
}

// The sets of the group inside which a line lies, of the lines from index `from` up to `end`.
fn lines_inside(words: &[u32], from: usize, end: usize, group: u32) -> Table
    requires group { IsGroup group }
    requires masks_at { MasksAt words.now from end }
    ensures { GroupOf (some_line (masks_from words.now from (end - from))) group result }
{
    let mut table = [0u64; TABLE_WORDS];
    if from >= end {
        return table;
    }
    gather(words, from, end, group, &mut table);
    spread(&mut table);
    table
}

// The mask overlaps every block of the group alike: it has none of their own signals, or one of the group's.
fn is_even(mask: u32, group: u32) -> bool
    requires { IsGroup group }
    ensures { result ≡ (eqb (mask / 64 % 16) 0 || overlap (mask / 1024) group) }
{
    mask / blocks::BLOCK_SETS % GROUP_BLOCKS == 0 || mask / GROUP_SETS & group != 0
}

// A policy, but for its mask.
#[derive(Clone, Copy)]
struct Policy {
    // The sets inside which a line lies.
    found: Table,
    // Every set of a block if it is turned, or none.
    turn: u64,
    // Every set of a block if it is quiet, or none.
    still: u64,
}

impl Policy {
    // What it says in block k, from the sets that share a signal with its mask.
    fn word(&self, k: usize, shared: u64) -> u64
        requires { k < 16 }
        ensures { WordOf (policy_bit shared (get_or self.now.found k 0) self.now.turn self.now.still) result }
    {
        (self.found[k] ^ self.turn) & shared | self.still & !shared
    }

    // Its words, each by its block's overlap. It is taken by value, which was measured to be faster than by reference.
    fn put<F: Fn(usize) -> u64>(self, table: &mut Table, overlap: F)
        requires { (k : ℕ) → k < 16 → F.pre overlap k }
        ensures { WordsPut (F.post overlap) self.found self.turn self.still table.new }
    {
        for (k, word) in table.iter_mut().enumerate() {
            *word = self.word(k, overlap(k));
        }
    }
}

// What the policy at index `at` says, whose lines end before index `end`, is put into the table. Its parts come one by
// one, as `layout::Kind` and `rod::next_index` give them.
fn put_policy(
    words: &[u32],
    at: usize,
    end: usize,
    quiet: bool,
    turned: bool,
    group: u32,
    table: &mut Table,
)
    requires policy_here { PolicyHere words.now at end }
    requires group { IsGroup group }
    ensures { Said words.now at quiet turned group table.new }
{
    let mask = words[at * layout::RECORD_WORDS + layout::MASK];
    let policy = Policy {
        found: lines_inside(words, at + 1, end, group),
        turn: blocks::all_if(turned),
        still: blocks::all_if(quiet),
    };
    let low = blocks::low_overlap(mask % blocks::BLOCK_SETS);
    let shared = blocks::block_overlap(mask, low, GROUP_BLOCKS * group);
    // Put so in any case, and again where it is not even: faster than to choose (docs/DECISIONS.md, D37).
    policy.put(table, |_| shared);
    if !is_even(mask, group) {
        policy.put(
            table,
            |k| blocks::block_overlap(mask, low, GROUP_BLOCKS * group + k as u32),
        );
    }
}

// Two values joined, of each set of a block.
fn join_words(first: u64, second: u64, or: bool) -> u64
    ensures { WordOf (λ j. joined (join_meaning or) (present first j) (present second j)) result }
{
    if or { first | second } else { first & second }
}

// The last two values joined into one, and how many there are then.
fn join_last(values: &mut Values, height: usize, or: bool) -> usize
    requires { TwoValues values.old height }
    ensures joined { JoinPut (join_meaning or) (height - 2) values.old values.new }
    ensures one_less { result ≡ height - 1 }
{
    for k in 0..TABLE_WORDS {
        values[height - 2][k] = join_words(values[height - 2][k], values[height - 1][k], or);
    }
    height - 1
}

// The values after the node at index `at`, and how many there are.
fn after_node(
    words: &[u32],
    at: usize,
    end: usize,
    group: u32,
    values: &mut Values,
    height: usize,
) -> usize
    requires node_to { NodeTo words.now at end }
    requires group_underway { GroupUnderway words.now group at values.old height }
    ensures { GroupUnderway words.now group end values.new result }
{
    let kind = layout::Kind::from(words[at * layout::RECORD_WORDS]);
    match kind {
        layout::Kind::Policy { quiet, turned } => {
            put_policy(words, at, end, quiet, turned, group, &mut values[height]);
            height + 1
        }
        layout::Kind::And => join_last(values, height, false),
        layout::Kind::Or => join_last(values, height, true),
        layout::Kind::Line | layout::Kind::Unknown | layout::Kind::Exclusion => height,
    }
}

// What a sound listing, which begins with so many pairs, says of each set of the group: in the first of the values.
pub fn reading(words: &[u32], pairs: usize, group: u32, values: &mut Values)
    requires sound_group { SoundGroup words.now pairs group }
    requires sixteen_tables { SixteenTables values.old }
    ensures { GroupRead words.now group values.new }
{
    let mut height: usize = 0;
    let mut at = pairs;
    // A `while`, since the next index is read from the listing.
    while at < words.len() / layout::RECORD_WORDS {
        let end = rod::next_index(words, at);
        height = after_node(words, at, end, group, values, height);
        at = end;
    }
}
