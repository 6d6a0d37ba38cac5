// The words of the run: the types that its functions share, and in specs/ what they promise by.
#![tactic(auto)]

use machine::{Cycles, Steps};

// The instruction at the program counter: its code, its operand and the address of the following one.
#[derive(Clone, Copy)]
pub struct Fetched {
    pub code: u8,
    pub operand: u32,
    pub next: u32,
}

// The flag, the counter and the depth after an instruction that touches the parameter cells alone. The depth stands last:
// a field as wide as a refusal's number would make the compiler join the two stores and keep the answer in memory.
#[derive(Clone, Copy)]
pub struct Stack {
    pub flag: u32,
    pub counter: u32,
    pub p: usize,
}

// What EXIT leaves: a subroutine level, or, with S = 0, the program.
#[derive(Clone, Copy, Debug, PartialEq, Eq)]
pub enum Exit {
    Frame,
    Program,
}

// P, R, S, E, the program counter and the flag; what is left of the budget and the cycles so far; and, once the run is over,
// its answer with what it did not spend, and whether it goes on, since a line might enter. The last two are no Option: each field is a
// register of the processor in the loop (docs/SPEED.md).
#[derive(Clone, Copy)]
pub struct Registers {
    pub p: usize,
    pub r: usize,
    pub s: usize,
    pub e: usize,
    pub counter: u32,
    pub flag: u32,
    pub left: Steps,
    pub cycles: Cycles,
    pub answer: u32,
    pub unspent: Steps,
    pub again: bool,
}

// What a machine keeps between two turns beside its arrays: P, R, S, E, the program counter and the flag.
#[derive(Clone, Copy)]
pub struct Pointers {
    pub p: usize,
    pub r: usize,
    pub s: usize,
    pub e: usize,
    pub counter: u32,
    pub flag: u32,
}

// Which task is asked first, what is left of the budget and the cycles so far; and, once the run of tasks is over, its answer
// with what it did not spend.
#[derive(Clone, Copy)]
pub struct Clock {
    pub from: usize,
    pub left: Steps,
    pub unspent: Steps,
    pub cycles: Cycles,
    pub answer: u32,
}
