// The types of numbers that are read and written: how many bytes each has.
ghost use Rattle.std.specs.Prelude.{◌≡◌, ℕ, ◌*◌, ◌%◌, ◌^◌, ◌≤◌};
ghost use Rattle.std.proofs.Common.{lit≤};

// A number of a fixed count of bytes.
pub trait Number: Copy {
    // How many bytes the type has.
    ghost BYTES: { ℕ };

    // The number that a value is.
    ghost value: { Self → ℕ };

    const BYTES: usize;

    // The number that the lowest bytes spell, as many as the type has.
    fn lowest(number: u64) -> Self
        ensures { value result ≡ number % 2 ^ (8 * BYTES) };

    // A number goes by way of 64 bits.
    ghost few: { BYTES ≤ 8 };

    // No two values are one number.
    ghost apart: { (a b : Self) → value a ≡ value b → a ≡ b };
}

impl Number for u8 {
    ghost BYTES = { 1 };

    ghost value = { λ number. number };

    ghost few = { lit≤ tt };

    ghost apart = { λ a b same. same };

    const BYTES: usize = 1;

    fn lowest(number: u64) -> u8 {
        (number % 0x100) as u8
    }
}

impl Number for u16 {
    ghost BYTES = { 2 };

    ghost value = { λ number. number };

    ghost few = { lit≤ tt };

    ghost apart = { λ a b same. same };

    const BYTES: usize = 2;

    fn lowest(number: u64) -> u16 {
        (number % 0x10000) as u16
    }
}

impl Number for u32 {
    ghost BYTES = { 4 };

    ghost value = { λ number. number };

    ghost few = { lit≤ tt };

    ghost apart = { λ a b same. same };

    const BYTES: usize = 4;

    fn lowest(number: u64) -> u32 {
        (number % 0x100000000) as u32
    }
}

impl Number for u64 {
    ghost BYTES = { 8 };

    ghost value = { λ number. number };

    ghost few = { lit≤ tt };

    ghost apart = { λ a b same. same };

    const BYTES: usize = 8;

    fn lowest(number: u64) -> u64 {
        number
    }
}
