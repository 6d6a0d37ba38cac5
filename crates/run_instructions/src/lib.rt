// The longer arms of the loop, the tests before an action, and what is counted. A part of the run.
#![tactic(auto)]

pub mod arms;
pub mod checks;
pub mod leave;
pub mod price;
pub mod tally;
