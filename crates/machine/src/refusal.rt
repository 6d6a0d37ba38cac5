// Why something is refused: each answer number of a refusal by name.
ghost use Rattle.std.specs.Prelude.{◌≡◌};
ghost use Rattle.machine.specs.Refusals.{number_of};

use std::error::Error;
use std::fmt;

#[derive(Clone, Copy, Debug, PartialEq, Eq)]
pub enum Refusal {
    // a memory, a budget, a state, a lent buffer or a line that is not as asked
    NotAsAsked = 2,
    // a byte of the instruction is outside memory
    InstructionOutside = 3,
    UnknownCode = 4,
    TooFewCells = 5,
    // R is 0
    NoReturnCell = 6,
    // E is 0, and there is something to throw
    NoExceptionLevel = 7,
    // P would pass its depth
    CellsFull = 8,
    ReturnsFull = 9,
    SubroutinesFull = 10,
    ExceptionsFull = 11,
    // a byte of the access is in no memory and in no cell in view
    AccessOutside = 12,
    DivisorZero = 13,
    BadImage = 14,
    // no routine is in progress, or there is no level to leave
    NoRoutine = 16,
    // a byte is in another task's part
    OthersPart = 17,
}

// The answer number.
impl From<Refusal> for u32 {
    ghost from_gives = { λ refusal number. number ≡ number_of refusal };

    fn from(refusal: Refusal) -> u32 {
        refusal as u32
    }
}

impl fmt::Display for Refusal {
    fn fmt<W: fmt::Write>(&self, f: &mut fmt::Formatter<W>) -> fmt::Result {
        write!(f, "refused with {}", u32::from(*self))
    }
}

impl Error for Refusal {}
