// Divisions: the remainder under, the quotient on top; the flag stays. A divisor of zero is refused.
ghost use Rattle.std.specs.Prelude.{◌≡◌};
ghost use Rattle.word.specs.Quotients.{divide_signed_of, divide_unsigned_of, magnitude_of, with_sign, apart};
ghost use Rattle.word.specs.Outcomes.{says_outcome};

use crate::{HALF, Outcome};

fn magnitude(x: u32) -> u32
    ensures { result ≡ magnitude_of x }
{
    if x < HALF { x } else { x.wrapping_neg() }
}

fn with_sign(negative: bool, size: u32) -> u32
    ensures { result ≡ with_sign negative size }
{
    if negative { size.wrapping_neg() } else { size }
}

// DIVS ( x y -- remainder quotient ): magnitudes are divided, so the quotient is cut toward zero.
pub(crate) fn divide_signed(x: u32, y: u32, flag: u32) -> Outcome
    ensures { says_outcome result ≡ says_outcome (divide_signed_of x y flag) }
{
    if y == 0 {
        return Outcome::DivisorZero;
    }
    let dividend = magnitude(x);
    let divisor = magnitude(y);
    let negative = HALF <= x;
    Outcome::Double(
        with_sign(negative, dividend % divisor),
        with_sign(negative != (HALF <= y), dividend / divisor),
        flag,
    )
}

// DIVU ( x y -- remainder quotient )
pub(crate) fn divide_unsigned(x: u32, y: u32, flag: u32) -> Outcome
    ensures { says_outcome result ≡ says_outcome (divide_unsigned_of x y flag) }
{
    if y == 0 {
        return Outcome::DivisorZero;
    }
    let remainder = x % y;
    let quotient = x / y;
    Outcome::Double(remainder, quotient, flag)
}
