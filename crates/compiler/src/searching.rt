// The search for a policy's minimal sets, by recursion on a falling rank (document 000, figure 5, but for its test of
// the empty set).
// For this crate only: no other can name these functions, and each call is proved to meet its condition.
ghost use Rattle.std.specs.Prelude.{ℕ, ◌≡◌, ◌+◌, ◌^◌, ◌≤◌, ◌<◌, List, [], ◌∷◌, ◌++◌, map, length};
ghost use Rattle.std.specs.Int.Signed.{mag};
ghost use Rattle.std.proofs.Common.{refl, sym, arith, ◌∙◌, add-zero, length-append};
ghost use Rattle.layout.specs.Nodes.{line_records};
ghost use Rattle.layout.specs.Writing.{RoomFor, put_records};
ghost use Rattle.peal.specs.Policies.{mask_of};
ghost use Rattle.compiler.specs.Worth.{initial as initial_of, reached_of};
ghost use Rattle.compiler.specs.Planning.{ThresholdFits};
ghost use Rattle.compiler.specs.Putting.{put_masks};
ghost use Rattle.layout.proofs.PuttingLaws.{put_none, put_on, put_left};
ghost use Rattle.compiler.specs.Searching.{Point, taken_of, having, all_at, taking, found, Searching, CanSearch, ForPoints, lines_of};

use crate::planning::{Plan, UNIT, initial, planned};

// The rules taken: how many they are, what they are worth, and the set of their signals.
#[derive(Clone, Copy)]
struct Taken {
    count: usize,
    value: i64,
    mask: u32,
}

// Where the sets that are found go, one after the other, by their masks.
trait Lines {
    // These masks were put into the first, which made the second of it.
    ghost after: { Self → List ℕ → Self → Type 0 };

    // So many masks can be put.
    ghost room: { Self → ℕ → Type 0 };

    fn put(&mut self, mask: u32)
        requires { room self.old 1 }
        ensures { after self.old (mask ∷ []) self.new };

    ghost none: { (s : Self) → after s [] s };

    ghost append: { (s t u : Self) (xs ys : List ℕ) → after s xs t → after t ys u → after s (xs ++ ys) u };

    ghost left: { (s t : Self) (xs : List ℕ) (n m : ℕ) → room s n → after s xs t → length xs + m ≤ n → room t m };
}

// They are only counted.
#[derive(Drop)]
struct Counter {
    sets: usize,
}

impl Lines for Counter {
    ghost after = { λ s xs t. t.sets ≡ s.sets + length xs };

    ghost room = { λ s n. s.sets + n < 2 ^ 31 };

    fn put(&mut self, mask: u32) {
        self.sets += 1;
    }

    ghost none = { λ s. sym (add-zero s.sets) };

    ghost append = { λ s t u xs ys g h. Prim.omega (arith, length-append xs ys) };

    ghost left = { λ s t xs n m room g few. Prim.omega arith };
}

// They become records, the next of them at number `at`; record `last` is the policy's last line.
#[derive(Drop)]
struct Writer<'a> {
    words: &'a mut [u32],
    at: usize,
    last: usize,
}

impl<'a> Lines for Writer<'a> {
    ghost after = { λ s xs t. (t.words.ghost_name ≡ s.words.ghost_name) × (t.last ≡ s.last) × (t.at ≡ s.at + length xs)
        × (t.words.now ≡ put_masks s.last s.at xs s.words.now) };

    ghost room = { λ s n. RoomFor s.at n s.words.now };

    fn put(&mut self, mask: u32) {
        layout::put_line(self.words, self.at, mask, self.last);
        self.at += 1;
    }

    ghost none = { λ s. (refl, refl, sym (add-zero s.at), put_none s.last s.at s.words.now) };

    ghost append = { λ s t u xs ys g h. (
      h.0 ∙ g.0,
      h.1 ∙ g.1,
      Prim.omega (arith, length-append xs ys),
      put_on s.last s.at xs ys s.words.now g.1 g.2 g.3 h.3,
    ) };

    ghost left = { λ s t xs n m room g few. put_left room s.last xs g.2 g.3 few };
}

// A value is on the side of the limit that counts.
fn is_reached(operator: peal::Operator, limit: i64, value: i64) -> bool
    requires { mag value ≤ 10 ^ 16 }
    ensures { result ≡ reached_of operator limit value }
{
    match operator {
        peal::Operator::Sum => limit < value,
        peal::Operator::Max => limit < value,
        peal::Operator::Min => value <= limit,
        peal::Operator::Mul => value * UNIT <= limit,
    }
}

// The rules taken and all `left` rules still to come have the property together.
fn can_reach(plan: &Plan, taken: Taken, left: usize) -> bool
    requires { CanSearch plan.now taken left }
    ensures { ForPoints plan.now taken left (λ p. result ≡ having p (all_at p left)) }
{
    let limit = plan.rows[taken.count + left].limit;
    let rest = plan.rows[left].rest;
    is_reached(
        plan.operator,
        limit,
        peal::combined(plan.operator, taken.value, rest),
    )
}

// The rules taken have the property.
fn has_reached(plan: &Plan, taken: Taken) -> bool
    requires { CanSearch plan.now taken 0 }
    ensures { ForPoints plan.now taken 0 (λ p. result ≡ having p p.taken) }
{
    is_reached(plan.operator, plan.rows[taken.count].limit, taken.value)
}

// The rules taken with the first of the rules still to come, after which `left` are left.
fn with_next(plan: &Plan, taken: Taken, left: usize) -> Taken
    requires { CanSearch plan.now taken (left + 1) }
    ensures { ForPoints plan.now taken (left + 1) (λ p. Searching plan.now result left (taking p (left + 1))) }
{
    let row = plan.rows[left + 1];
    Taken {
        count: taken.count + 1,
        value: peal::combined(plan.operator, taken.value, row.score),
        mask: taken.mask + row.bit,
    }
}

// Puts the sets that are found beyond the rules taken with the `rank` rules of lowest rank. What is taken comes in three
// parts: as one struct it is handed on through memory, which takes a fifth longer.
fn search<L: Lines>(plan: &Plan, count: usize, value: i64, mask: u32, rank: usize, lines: &mut L)
    requires { (p : Point) × Searching plan.now (taken_of count value mask) rank p × L.room lines.old (length (found p rank)) }
    ensures { ForPoints plan.now (taken_of count value mask) rank
        (λ p. L.after lines.old (map mask_of (found p rank)) lines.new) }
{
    let taken = Taken { count, value, mask };
    for left in (0..rank).rev() {
        if !can_reach(plan, taken, left + 1) {
            return;
        }
        let next = with_next(plan, taken, left);
        if has_reached(plan, next) {
            lines.put(next.mask);
        } else {
            search(plan, next.count, next.value, next.mask, left, lines);
        }
    }
}

// No rule is taken.
fn none_taken(operator: peal::Operator) -> Taken
    ensures { (result.count ≡ 0) × (result.value ≡ initial_of operator) × (result.mask ≡ 0) }
{
    Taken {
        count: 0,
        value: initial(operator),
        mask: 0,
    }
}

// How many lines a policy has under a threshold.
pub fn count_lines(policy: &book::Policy, threshold: i32) -> usize
    requires { ThresholdFits threshold }
    ensures { result ≡ length (lines_of threshold policy.now) }
{
    let plan = planned(policy, threshold);
    let mut counter = Counter { sets: 0 };
    let none = none_taken(plan.operator);
    let rank = policy.rules().len();
    search(&plan, none.count, none.value, none.mask, rank, &mut counter);
    counter.sets
}

// The records of these lines, which are so many, from record `at` on.
pub fn put_lines(policy: &book::Policy, threshold: i32, count: usize, words: &mut [u32], at: usize)
    requires fits { ThresholdFits threshold }
    requires counted { count ≡ length (lines_of threshold policy.now) }
    requires room { RoomFor at count words.old }
    ensures { words.new ≡ put_records words.old at (line_records at (map mask_of (lines_of threshold policy.now))) }
{
    let plan = planned(policy, threshold);
    let mut writer = Writer {
        words: &mut *words,
        at,
        last: at + count - 1,
    };
    let none = none_taken(plan.operator);
    let rank = policy.rules().len();
    search(&plan, none.count, none.value, none.mask, rank, &mut writer);
}
