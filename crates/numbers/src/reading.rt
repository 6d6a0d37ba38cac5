// Numbers at a place of a slice of any length.
ghost use Rattle.std.specs.Prelude.{◌≡◌, ◌≤◌, length, option_map};
ghost use Rattle.numbers.specs.Bytes.{number_at};
ghost use Rattle.numbers.specs.Slices.{says_found, read_at};

use crate::{Number, places};

// The number that a few bytes spell, the highest first: the last of eight, of which the others are 0.
fn joined(bytes: &[u8]) -> u64
    requires { length bytes.now ≤ 8 }
    ensures { result ≡ number_at (length bytes.now) bytes.now 0 }
{
    let mut eight = [0; 8];
    eight[8 - bytes.len()..].copy_from_slice(bytes);
    u64::from_be_bytes(eight)
}

// The number that stands at a place, of as many bytes as its type has.
pub fn read<T: Number>(bytes: &[u8], at: usize) -> Option<T>
    ensures { says_found (option_map T.value result) ≡ read_at T.BYTES bytes.now at }
{
    if !places::inside(T::BYTES, bytes, at) {
        return None;
    }
    Some(T::lowest(joined(&bytes[at..at + T::BYTES])))
}
