// What both doors share: whether a state is well formed, and a run that interrupt lines may enter. A part of the run.
#![tactic(auto)]

pub mod formed;
pub mod served;
