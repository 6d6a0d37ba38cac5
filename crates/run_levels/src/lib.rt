// A machine as the loop has it: a row of numbers for each level. A part of the run.
#![tactic(auto)]

pub mod linked;
pub mod parts;
pub mod sums;
pub mod taskrows;
pub mod view;
