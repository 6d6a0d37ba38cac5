// Comparisons: a truth cell, and the flag as it came.
ghost use Rattle.std.specs.Prelude.{◌≡◌, int_lt};
ghost use Rattle.word.specs.Compare.{told_of, equal_of, unequal_of, less_of, greater_of, below_of, above_of, zero_equal_of, zero_unequal_of, zero_less_of, zero_greater_of};
ghost use Rattle.word.specs.Integers.{signed};
ghost use Rattle.word.specs.Outcomes.{says_outcome};

use crate::truth::truth;
use crate::{Changed, HALF, Outcome};

// Half the range, added to both, turns the signed order into the unsigned one.
fn is_less(x: u32, y: u32) -> bool
    ensures { result ≡ int_lt (signed x) (signed y) }
{
    x.wrapping_add(HALF) < y.wrapping_add(HALF)
}

// One cell tested: its truth in its place.
fn told(holds: bool, flag: u32) -> Changed
    ensures { result ≡ told_of holds flag }
{
    Changed {
        value: truth(holds),
        flag,
    }
}

// = ( x y -- truth )
pub(crate) fn equal(x: u32, y: u32, flag: u32) -> Outcome
    ensures { says_outcome result ≡ says_outcome (equal_of x y flag) }
{
    Outcome::Single(truth(x == y), flag)
}

// <> ( x y -- truth )
pub(crate) fn unequal(x: u32, y: u32, flag: u32) -> Outcome
    ensures { says_outcome result ≡ says_outcome (unequal_of x y flag) }
{
    Outcome::Single(truth(x != y), flag)
}

// < ( x y -- truth )
pub(crate) fn less(x: u32, y: u32, flag: u32) -> Outcome
    ensures { says_outcome result ≡ says_outcome (less_of x y flag) }
{
    Outcome::Single(truth(is_less(x, y)), flag)
}

// > ( x y -- truth )
pub(crate) fn greater(x: u32, y: u32, flag: u32) -> Outcome
    ensures { says_outcome result ≡ says_outcome (greater_of x y flag) }
{
    less(y, x, flag)
}

// U< ( x y -- truth )
pub(crate) fn below(x: u32, y: u32, flag: u32) -> Outcome
    ensures { says_outcome result ≡ says_outcome (below_of x y flag) }
{
    Outcome::Single(truth(x < y), flag)
}

// U> ( x y -- truth )
pub(crate) fn above(x: u32, y: u32, flag: u32) -> Outcome
    ensures { says_outcome result ≡ says_outcome (above_of x y flag) }
{
    below(y, x, flag)
}

// 0= ( x -- truth )
pub(crate) fn zero_equal(x: u32, flag: u32) -> Changed
    ensures { result ≡ zero_equal_of x flag }
{
    told(x == 0, flag)
}

// 0<> ( x -- truth )
pub(crate) fn zero_unequal(x: u32, flag: u32) -> Changed
    ensures { result ≡ zero_unequal_of x flag }
{
    told(x != 0, flag)
}

// 0< ( x -- truth )
pub(crate) fn zero_less(x: u32, flag: u32) -> Changed
    ensures { result ≡ zero_less_of x flag }
{
    told(is_less(x, 0), flag)
}

// 0> ( x -- truth )
pub(crate) fn zero_greater(x: u32, flag: u32) -> Changed
    ensures { result ≡ zero_greater_of x flag }
{
    told(is_less(0, x), flag)
}
