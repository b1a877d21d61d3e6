// The calls for programs in C or Rust that link this code; include/cerahupo.h is their header. Each is the call of the
// crate `exports` that has its name, with its clauses: a static library of its own, since Rattle builds a crate either for
// other crates or for C.
#![tactic(auto)]

ghost use Rattle.std.specs.Prelude.{◌≡◌};
ghost use Rattle.layout.specs.Records.{one_if};
ghost use Rattle.rod.specs.Reading.{rod_answer};
ghost use Rattle.checks.specs.Checks.{chosen, comparison};
ghost use Rattle.book.specs.Books.{checked};
ghost use Rattle.score.specs.Decisions.{scored_answer};
ghost use Rattle.exports.specs.Packing.{packed};
ghost use Rattle.exports.specs.Packing.{counts_value, ScoreTold, CompilingTold, TraverseTold, chosen_value, packed_comparison};

#[unsafe(no_mangle)]
pub extern "C" fn cerahupo_check(bytes: &[u8]) -> u64
    ensures { result ≡ packed counts_value (checked bytes.now) }
{
    exports::cerahupo_check(bytes)
}

#[unsafe(no_mangle)]
pub extern "C" fn cerahupo_decide(bytes: &[u8], condition: u32, set: u16) -> u64
    ensures { result ≡ packed one_if (scored_answer bytes.now condition set) }
{
    exports::cerahupo_decide(bytes, condition, set)
}

#[unsafe(no_mangle)]
pub extern "C" fn cerahupo_score(bytes: &[u8], condition: u32, set: u16, remainder: &mut u64) -> u64
    ensures { ScoreTold bytes.now condition set remainder.old result remainder.new }
{
    exports::cerahupo_score(bytes, condition, set, remainder)
}

#[unsafe(no_mangle)]
pub extern "C" fn cerahupo_compile(bytes: &[u8], condition: u32, words: &mut [u32]) -> u64
    ensures { CompilingTold bytes.now condition words.old result words.new }
{
    exports::cerahupo_compile(bytes, condition, words)
}

#[unsafe(no_mangle)]
pub extern "C" fn cerahupo_read(words: &[u32], set: u16) -> u64
    ensures { result ≡ packed one_if (rod_answer words.now set) }
{
    exports::cerahupo_read(words, set)
}

#[unsafe(no_mangle)]
pub extern "C" fn cerahupo_traverse(words: &[u32], sets: &[u16], answers: &mut [u8]) -> u64
    ensures { TraverseTold words.now sets.now answers.old
        result answers.new }
{
    exports::cerahupo_traverse(words, sets, answers)
}

#[unsafe(no_mangle)]
pub extern "C" fn cerahupo_choice(words: &[u32]) -> u64
    ensures { result ≡ packed chosen_value (chosen words.now) }
{
    exports::cerahupo_choice(words)
}

#[unsafe(no_mangle)]
pub extern "C" fn cerahupo_compare(one: &[u32], two: &[u32]) -> u64
    ensures { result ≡ packed_comparison (comparison one.now two.now) }
{
    exports::cerahupo_compare(one, two)
}
