// Operations on the bits of a cell, each bit for itself; the flag stays.
ghost use Rattle.std.specs.Prelude.{◌≡◌};
ghost use Rattle.word.specs.Bits.{and_bits_of, or_bits_of, invert_of, xor_bits_of};
ghost use Rattle.word.specs.Outcomes.{says_outcome};

use crate::{Changed, Outcome};

// AND ( x y -- z )
pub(crate) fn and_bits(x: u32, y: u32, flag: u32) -> Outcome
    ensures { says_outcome result ≡ says_outcome (and_bits_of x y flag) }
{
    Outcome::Single(x & y, flag)
}

// OR ( x y -- z )
pub(crate) fn or_bits(x: u32, y: u32, flag: u32) -> Outcome
    ensures { says_outcome result ≡ says_outcome (or_bits_of x y flag) }
{
    Outcome::Single(x | y, flag)
}

// INVERT ( x -- z )
pub(crate) fn invert(x: u32, flag: u32) -> Changed
    ensures { result ≡ invert_of x flag }
{
    Changed { value: !x, flag }
}

// XOR ( x y -- z )
pub(crate) fn xor_bits(x: u32, y: u32, flag: u32) -> Outcome
    ensures { says_outcome result ≡ says_outcome (xor_bits_of x y flag) }
{
    Outcome::Single(x ^ y, flag)
}
