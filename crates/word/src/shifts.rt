// Shifts by one place, and sign extension; the flag stays.
ghost use Rattle.std.specs.Prelude.{◌≡◌};
ghost use Rattle.word.specs.Shifts.{halve_of, shift_left_of, shift_right_of, extend_byte_of, extend_word_of};

use crate::{Changed, HALF};

// 2/ ( x -- z ): the top bit stays where it is.
pub(crate) fn halve(x: u32, flag: u32) -> Changed
    ensures { result ≡ halve_of x flag }
{
    let sign = x / HALF;
    Changed {
        value: x / 2 + sign * HALF,
        flag,
    }
}

// LSL ( x -- z )
pub(crate) fn shift_left(x: u32, flag: u32) -> Changed
    ensures { result ≡ shift_left_of x flag }
{
    Changed {
        value: x.wrapping_add(x),
        flag,
    }
}

// LSR ( x -- z )
pub(crate) fn shift_right(x: u32, flag: u32) -> Changed
    ensures { result ≡ shift_right_of x flag }
{
    Changed { value: x / 2, flag }
}

// XBYTE ( x -- z ): half the byte's range added, wrapped and taken off again.
pub(crate) fn extend_byte(x: u32, flag: u32) -> Changed
    ensures { result ≡ extend_byte_of x flag }
{
    let turned = (x % 0x100 + 0x80) % 0x100;
    Changed {
        value: turned.wrapping_sub(0x80),
        flag,
    }
}

// XWORD ( x -- z ): the same with the range of two bytes.
pub(crate) fn extend_word(x: u32, flag: u32) -> Changed
    ensures { result ≡ extend_word_of x flag }
{
    let turned = (x % 0x1_0000 + 0x8000) % 0x1_0000;
    Changed {
        value: turned.wrapping_sub(0x8000),
        flag,
    }
}
