// Numbers as bytes, the highest byte first, and as digits: made of bytes, read and written in a slice of any length.
#![tactic(auto)]

use std::error::Error;
use std::fmt;

mod digits;
mod joining;
mod places;
mod reading;
mod widths;
mod writing;

pub use digits::{MOST_DECIMAL, write_decimal, write_hexadecimal};
pub use joining::{four_bytes, one_byte, three_bytes, two_bytes};
pub use reading::read;
pub use widths::Number;
pub use writing::write;

// The bytes or characters do not all lie inside the slice. Where this is answered, nothing in it was touched.
#[derive(Clone, Copy, Debug, PartialEq, Eq)]
pub struct Outside;

impl fmt::Display for Outside {
    fn fmt<W: fmt::Write>(&self, f: &mut fmt::Formatter<W>) -> fmt::Result {
        write!(f, "not wholly inside the slice")
    }
}

impl Error for Outside {}
