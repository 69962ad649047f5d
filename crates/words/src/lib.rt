// Single bits of words. A caller widens a shorter word, so one width serves all.
#![tactic(auto)]

ghost use Rattle.std.specs.Prelude.{true, ◌≡◌, ◌+◌, ◌*◌, ◌^◌, ◌<◌};
ghost use Rattle.words.specs.Bits.{bit_at, with_bit, bit_number, IsLowest};

// Bit number i of w.
pub fn bit(w: u64, i: u32) -> bool
    requires { i < 64 }
    ensures { result ≡ bit_at w i }
{
    ((w >> i) & 1) == 1
}

// A word of i bits with one bit more on top of it: a step of word_of.
pub fn pushed(w: u64, i: u32, b: bool) -> u64
    requires i_bound { i < 64 }
    requires w_bound { w < 2 ^ i }
    ensures { result ≡ w + bit_number b * 2 ^ i }
{
    w | ((b as u64) << i)
}

// The word with bit i set.
pub fn with_set(w: u64, i: u32) -> u64
    requires { i < 64 }
    ensures { result ≡ with_bit w i true }
{
    w | (1 << i)
}

// The place of the lowest bit that is set, in a word that is not 0.
pub fn lowest(w: u64) -> u32
    requires { 0 < w }
    ensures { IsLowest w result × (result < 64) }
{
    u64::trailing_zeros(w)
}
