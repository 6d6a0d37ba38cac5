// Numbers put at a place of a slice of any length.
ghost use Rattle.std.specs.Prelude.{◌≡◌, ◌≤◌, length};
ghost use Rattle.numbers.specs.Bytes.{bytes_of};
ghost use Rattle.numbers.specs.Slices.{says_written, write_at};

use crate::{Number, Outside, places};

// The lowest bytes of a number, as many as there is room for, the highest first.
fn spell(bytes: &mut [u8], value: u64)
    requires { length bytes.old ≤ 8 }
    ensures { bytes.new ≡ bytes_of (length bytes.old) value }
{
    let all = value.to_be_bytes();
    bytes.copy_from_slice(&all[8 - bytes.len()..]);
}

// The lowest bytes of a number put at a place, as many as the type has.
pub fn write<T: Number>(bytes: &mut [u8], at: usize, value: u64) -> Result<(), Outside>
    ensures { record { said = says_written result; bytes = bytes.new } ≡ write_at T.BYTES value bytes.old at }
{
    if !places::inside(T::BYTES, bytes, at) {
        return Err(Outside);
    }
    spell(&mut bytes[at..at + T::BYTES], value);
    Ok(())
}
