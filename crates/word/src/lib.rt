// Arithmetic on one 32-bit cell, or two: codes 0E to 2C without ZERO, as pure functions on numbers.
// Of one cell x is that cell; of two x is the deeper one and y the top. The extend flag may be any number.
#![tactic(auto)]

mod bits;
mod compare;
mod dispatch;
mod products;
mod quotients;
mod shifts;
mod sums;
mod truth;

pub use dispatch::{one_cell, two_cells};

// Half the range of a cell: a cell that is not below it holds an integer below zero.
pub(crate) const HALF: u32 = 0x8000_0000;

// What an operation on one cell leaves: the cell and the flag.
#[derive(Clone, Copy)]
pub struct Changed {
    pub value: u32,
    pub flag: u32,
}

// What an operation on two cells answers: a cell and the flag; two cells, the top second, and the flag; or that the divisor is zero.
#[derive(Clone, Copy)]
pub enum Outcome {
    Single(u32, u32),
    Double(u32, u32, u32),
    DivisorZero,
}

// The operations on one cell, in the order of their codes.
#[derive(Clone, Copy)]
pub enum OneCell {
    Negate,
    Increment,
    Decrement,
    Halve,
    ZeroEqual,
    ZeroUnequal,
    ZeroLess,
    ZeroGreater,
    Invert,
    ShiftLeft,
    ShiftRight,
    ExtendByte,
    ExtendWord,
}

// The operations on two cells, in the order of their codes.
#[derive(Clone, Copy)]
pub enum TwoCells {
    Plus,
    Minus,
    AddExtended,
    SubtractExtended,
    Equal,
    Unequal,
    Less,
    Greater,
    Below,
    Above,
    AndBits,
    OrBits,
    XorBits,
    MultiplySigned,
    MultiplyUnsigned,
    DivideSigned,
    DivideUnsigned,
}
