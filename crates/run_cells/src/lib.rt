// The instructions that touch the parameter cells alone. A part of the run: what it asks of its caller is said at each function.
#![tactic(auto)]

pub mod cells;
pub mod dispatch;
pub mod jumps;
