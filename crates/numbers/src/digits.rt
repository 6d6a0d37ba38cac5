// Numbers as characters, put at a place of a slice of any length.
ghost use Rattle.std.specs.Prelude.{◌≡◌, ◌<◌, ◌≤◌, length};
ghost use Rattle.numbers.specs.Digits.{digit, decimal, hexadecimal};
ghost use Rattle.numbers.specs.Laws.Base.{in_base};
ghost use Rattle.numbers.specs.Slices.{says_put, put_at};

use crate::{Outside, places};

// How many decimal digits a number of 64 bits has at the most.
pub const MOST_DECIMAL: usize = 20;

// 0 to 9, then A to F.
fn digit_of(d: u8) -> u8
    requires { d < 16 }
    ensures { result ≡ digit d }
{
    if d < 10 {
        return 0x30 + d;
    }
    0x41 + (d - 10)
}

// How many decimal digits a number has: at least one. By comparing, since a division for each digit is slow, and its
// loop, joined with a run, costs every step of it (docs/SPEED.md).
fn decimal_length(value: u64) -> usize
    ensures { result ≡ length (decimal value) }
{
    match value {
        ..=9 => 1,
        ..=99 => 2,
        ..=999 => 3,
        ..=9999 => 4,
        ..=99999 => 5,
        ..=999999 => 6,
        ..=9999999 => 7,
        ..=99999999 => 8,
        ..=999999999 => 9,
        ..=9999999999 => 10,
        ..=99999999999 => 11,
        ..=999999999999 => 12,
        ..=9999999999999 => 13,
        ..=99999999999999 => 14,
        ..=999999999999999 => 15,
        ..=9999999999999999 => 16,
        ..=99999999999999999 => 17,
        ..=999999999999999999 => 18,
        ..=9999999999999999999 => 19,
        _ => MOST_DECIMAL,
    }
}

// The lowest digits of a number to a base, as many as there is room for, from the last back to the first.
fn put_digits<const BASE: u64>(digits: &mut [u8], value: u64)
    requires { (1 ≤ BASE) × (BASE ≤ 16) }
    ensures { digits.new ≡ in_base BASE (length digits.old) value }
{
    let mut rest = value;
    for place in (0..digits.len()).rev() {
        digits[place] = digit_of((rest % BASE) as u8);
        rest /= BASE;
    }
}

// So many of a number's lowest digits to a base put at a place.
fn write_digits<const BASE: u64>(
    text: &mut [u8],
    at: usize,
    count: usize,
    value: u64,
) -> Result<usize, Outside>
    requires { (1 ≤ BASE) × (BASE ≤ 16) }
    ensures { record { said = says_put result; text = text.new } ≡ put_at (in_base BASE count value) text.old at }
{
    if !places::inside(count, text, at) {
        return Err(Outside);
    }
    put_digits::<BASE>(&mut text[at..at + count], value);
    Ok(at + count)
}

// A number in decimal, with no zero in front but for 0 itself.
pub fn write_decimal(text: &mut [u8], at: usize, value: u64) -> Result<usize, Outside>
    ensures { record { said = says_put result; text = text.new } ≡ put_at (decimal value) text.old at }
{
    write_digits::<10>(text, at, decimal_length(value), value)
}

// The lowest digits of a number to the base 16, in capitals, as many as are asked for.
pub fn write_hexadecimal(
    text: &mut [u8],
    at: usize,
    count: usize,
    value: u32,
) -> Result<usize, Outside>
    ensures { record { said = says_put result; text = text.new } ≡ put_at (hexadecimal count value) text.old at }
{
    write_digits::<16>(text, at, count, value as u64)
}
