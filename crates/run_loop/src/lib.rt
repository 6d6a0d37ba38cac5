// The run's loop. A part of the run.
#![tactic(auto)]

pub mod round;
