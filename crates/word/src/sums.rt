// Sums and differences that wrap, and what they do to the flag.
ghost use Rattle.std.specs.Prelude.{◌≡◌, ◌+◌};
ghost use Rattle.word.specs.Sums.{sum_of, difference_of, plus_of, minus_of, negate_of, increment_of, decrement_of, add_extended_of, subtract_extended_of};
ghost use Rattle.word.specs.Outcomes.{says_outcome};

use crate::truth::bit;
use crate::{Changed, Outcome};

// A wrapped sum is below x just when it carried.
fn sum(x: u32, y: u32) -> Changed
    ensures { result ≡ sum_of (x + y) }
{
    let value = x.wrapping_add(y);
    Changed {
        value,
        flag: bit(value < x),
    }
}

fn difference(x: u32, off: u32) -> Changed
    ensures { result ≡ difference_of x off }
{
    Changed {
        value: x.wrapping_sub(off),
        flag: bit(x < off),
    }
}

// + ( x y -- x+y )
pub(crate) fn plus(x: u32, y: u32, flag: u32) -> Outcome
    ensures { says_outcome result ≡ says_outcome (plus_of x y flag) }
{
    let whole = sum(x, y);
    Outcome::Single(whole.value, whole.flag)
}

// - ( x y -- x-y )
pub(crate) fn minus(x: u32, y: u32, flag: u32) -> Outcome
    ensures { says_outcome result ≡ says_outcome (minus_of x y flag) }
{
    let rest = difference(x, y);
    Outcome::Single(rest.value, rest.flag)
}

// NEGATE ( x -- 0-x )
pub(crate) fn negate(x: u32, flag: u32) -> Changed
    ensures { result ≡ negate_of x flag }
{
    let opposite = difference(0, x);
    Changed {
        value: opposite.value,
        flag,
    }
}

// 1+ ( x -- x+1 )
pub(crate) fn increment(x: u32, flag: u32) -> Changed
    ensures { result ≡ increment_of x flag }
{
    let whole = sum(x, 1);
    Changed {
        value: whole.value,
        flag,
    }
}

// 1- ( x -- x-1 )
pub(crate) fn decrement(x: u32, flag: u32) -> Changed
    ensures { result ≡ decrement_of x flag }
{
    let rest = difference(x, 1);
    Changed {
        value: rest.value,
        flag,
    }
}

// ADDX ( x y -- x+y+flag ): either of the two additions may carry.
pub(crate) fn add_extended(x: u32, y: u32, flag: u32) -> Outcome
    ensures { says_outcome result ≡ says_outcome (add_extended_of x y flag) }
{
    let cells = sum(x, y);
    let whole = sum(cells.value, flag);
    Outcome::Single(whole.value, cells.flag | whole.flag)
}

// SUBX ( x y -- x-y-flag ): either of the two subtractions may borrow.
pub(crate) fn subtract_extended(x: u32, y: u32, flag: u32) -> Outcome
    ensures { says_outcome result ≡ says_outcome (subtract_extended_of x y flag) }
{
    let cells = difference(x, y);
    let whole = difference(cells.value, flag);
    Outcome::Single(whole.value, cells.flag | whole.flag)
}
