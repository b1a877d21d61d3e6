// A block is the 64 sets from 64 * block on. A word of 64 bits tells one thing of each of them: bit j is for the set
// 64 * block + j. So the six lowest signals have the same patterns in every block. For the crates above.
#![tactic(auto)]

ghost use Rattle.std.specs.Prelude.{not, ◌&&◌, ◌||◌, ◌≡◌, ◌+◌, ◌≤◌, ◌<◌};
ghost use Rattle.arith.specs.Lists.{count_below};
ghost use Rattle.signals.specs.Sets.{present, overlap};
ghost use Rattle.blocks.specs.Blocks.{WordOf, BlockOf, LowTold, without};

// How many sets a block has.
pub const BLOCK_SETS: u32 = 64;

// The place of a block's last set.
pub const LAST_PLACE: u32 = BLOCK_SETS - 1;

// How many signals tell a block's sets apart: the lowest. A signal is a plain number, since `for` goes over them.
pub const BLOCK_SIGNALS: u32 = 6;

// Every set of a block.
const ALL: u64 = 0xffffffffffffffff;

// Every set of a block, or none.
pub fn all_if(yes: bool) -> u64
    ensures { WordOf (λ j. yes) result }
{
    if yes { ALL } else { 0 }
}

// The sets of a block that have the signal, one of the six lowest; a plain number, since a `for` goes over them.
fn having(signal: u32) -> u64
    requires { signal < 6 }
    ensures { WordOf (λ j. present j signal) result }
{
    match signal {
        0 => 0xaaaaaaaaaaaaaaaa,
        1 => 0xcccccccccccccccc,
        2 => 0xf0f0f0f0f0f0f0f0,
        3 => 0xff00ff00ff00ff00,
        4 => 0xffff0000ffff0000,
        _ => 0xffffffff00000000,
    }
}

// Each set that has the signal also gets what the word tells of the set without it.
pub fn spread(word: u64, signal: u32) -> u64
    requires { signal < 6 }
    ensures { WordOf (λ j. present word j || present word (without signal j)) result }
{
    let weight: u32 = 1 << signal;
    word | word << weight & having(signal)
}

// The sets of a block that have the signal, if the mask has it.
fn sharing(low: u32, signal: u32) -> u64
    requires { signal < 6 }
    ensures { WordOf (λ j. present low signal && present j signal) result }
{
    if low >> signal & 1 == 1 {
        having(signal)
    } else {
        0
    }
}

// The sets of a block that share one of the six lowest signals with the mask.
pub fn low_overlap(low: u32) -> u64
    requires { low < 64 }
    ensures { WordOf (overlap low) result }
{
    let mut word: u64 = 0;
    for signal in 0..BLOCK_SIGNALS {
        word = sharing(low, signal) | word;
    }
    word
}

// The sets of the block that share a signal with the mask, from those that share one of the six lowest.
pub fn block_overlap(mask: u32, low: u64, block: u32) -> u64
    requires low_told { LowTold mask low }
    requires block_bound { block ≤ 1023 }
    ensures { BlockOf (overlap mask) block result }
{
    if mask / BLOCK_SETS & block == 0 {
        low
    } else {
        ALL
    }
}

// How many of the word's bits are zero, up to bit `last`, which is looked at too.
pub fn zeros_up_to(word: u64, last: u32) -> u32
    requires { last < 64 }
    ensures { result ≡ count_below (last + 1) (λ j. not (present word j)) }
{
    u64::count_ones(!word << (LAST_PLACE - last))
}
