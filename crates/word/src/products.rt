// Products of 64 bits: the low cell under, the high cell on top; the flag stays.
ghost use Rattle.std.specs.Prelude.{◌≡◌, ◌*◌, ◌/◌, ◌^◌};
ghost use Rattle.word.specs.Products.{multiply_signed_of, multiply_unsigned_of};
ghost use Rattle.word.specs.Outcomes.{says_outcome};

use crate::{HALF, Outcome};

// The other factor where x is negative: what x then takes off the high cell.
fn if_negative(x: u32, other: u32) -> u32
    ensures { result ≡ x / 2 ^ 31 * other }
{
    if x < HALF { 0 } else { other }
}

// MULTS ( x y -- low high ): the unsigned product, with each factor taken off the high cell where the other is negative.
pub(crate) fn multiply_signed(x: u32, y: u32, flag: u32) -> Outcome
    ensures { says_outcome result ≡ says_outcome (multiply_signed_of x y flag) }
{
    let product = x as u64 * y as u64;
    let low = (product % 0x1_0000_0000) as u32;
    let high = (product / 0x1_0000_0000) as u32;
    let less = high.wrapping_sub(if_negative(x, y));
    let least = less.wrapping_sub(if_negative(y, x));
    Outcome::Double(low, least, flag)
}

// MULTU ( x y -- low high )
pub(crate) fn multiply_unsigned(x: u32, y: u32, flag: u32) -> Outcome
    ensures { says_outcome result ≡ says_outcome (multiply_unsigned_of x y flag) }
{
    let product = x as u64 * y as u64;
    let low = (product % 0x1_0000_0000) as u32;
    let high = (product / 0x1_0000_0000) as u32;
    Outcome::Double(low, high, flag)
}
