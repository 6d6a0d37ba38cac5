// Numbers in memory, the instruction at the program counter, and where an access reaches. A part of the run.
#![tactic(auto)]

pub mod access;
pub mod fetch;
pub mod memory;
