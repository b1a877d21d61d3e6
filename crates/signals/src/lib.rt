// Signal sets, as bits of a number. The functions are for the crates above.
#![tactic(auto)]

ghost use Rattle.std.specs.Prelude.{◌&&◌, [], ◌∷◌, ◌≡◌, ◌≤◌};
ghost use Rattle.signals.specs.Sets.{is_set, present, inside, is_pair, set_of};

// The set of all of them: a number above it is no signal set.
pub const HIGHEST_SET: u32 = 65535;

// The set of one signal. The crates above have signals from 0 to 15 alone.
pub fn bit(signal: u32) -> u32
    requires { signal ≤ 15 }
    ensures { result ≡ set_of (signal ∷ []) }
{
    1 << signal
}

// The signal is in the set.
pub fn is_present(set: u16, signal: u32) -> bool
    requires { signal ≤ 15 }
    ensures { result ≡ present set signal }
{
    set as u32 >> signal & 1 == 1
}

// The mask is a signal set, and lies wholly inside the set.
pub fn lies_inside(mask: u32, set: u16) -> bool
    ensures { result ≡ (is_set mask && inside mask set) }
{
    mask & set as u32 == mask
}

// The mask is a set of exactly two signals.
pub fn is_pair(mask: u32) -> bool
    ensures { result ≡ is_pair mask }
{
    mask <= HIGHEST_SET && u32::count_ones(mask) == 2
}
