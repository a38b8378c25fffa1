// The words of the paper: positions and nominations, classes and directions, refusals.
#![tactic(auto)]

pub mod check;
pub mod quantity;
pub mod refusal;
