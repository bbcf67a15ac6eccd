// Sets of at most 64 positions as 64-bit words: position i is bit i.
#![tactic(auto)]

ghost use Rattle.std.specs.Prelude.{◌≡◌, ◌<◌};
ghost use Rattle.words.specs.Positions.{has as has_position, adding as adding_position, within as lies_within, strictly_within};

/// Whether position i is in the set w.
#[tactic(auto, using(crate::proofs::Bits::has_shifted, crate::proofs::Bits::has_no_more))]
pub fn has(w: u64, i: u8) -> bool
    ensures { result ≡ has_position w i }
{
    if 64 <= i {
        return false;
    }
    (w >> i) % 2 == 1
}

/// The set w with position i.
pub fn adding(w: u64, i: u8) -> u64
    requires { i < 64 }
    ensures { result ≡ adding_position w i }
{
    w | (1u64 << i)
}

/// Whether every position of a is one of b.
pub fn within(a: u64, b: u64) -> bool
    ensures { result ≡ lies_within a b }
{
    for i in 0..64 {
        if has(a, i) && !has(b, i) {
            return false;
        }
    }
    true
}

/// Whether a lies within b, and b has a position more.
pub fn strictly_within(a: u64, b: u64) -> bool
    ensures { result ≡ strictly_within a b }
{
    within(a, b) && !within(b, a)
}
