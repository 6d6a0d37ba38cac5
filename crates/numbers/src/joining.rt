// A few bytes joined to a number, the highest first: for who has them and no slice.
ghost use Rattle.std.specs.Prelude.{◌≡◌, [], ◌∷◌};
ghost use Rattle.numbers.specs.Bytes.{number_at};

pub fn one_byte(a: u8) -> u32
    ensures { result ≡ number_at 1 (a ∷ []) 0 }
{
    a as u32
}

pub fn two_bytes(a: u8, b: u8) -> u32
    ensures { result ≡ number_at 2 (a ∷ b ∷ []) 0 }
{
    one_byte(a) * 0x100 + one_byte(b)
}

pub fn three_bytes(a: u8, b: u8, c: u8) -> u32
    ensures { result ≡ number_at 3 (a ∷ b ∷ c ∷ []) 0 }
{
    one_byte(a) * 0x10000 + one_byte(b) * 0x100 + one_byte(c)
}

pub fn four_bytes(a: u8, b: u8, c: u8, d: u8) -> u32
    ensures { result ≡ number_at 4 (a ∷ b ∷ c ∷ d ∷ []) 0 }
{
    one_byte(a) * 0x1000000 + one_byte(b) * 0x10000 + one_byte(c) * 0x100 + one_byte(d)
}
