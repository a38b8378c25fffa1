// The records and blocks that a day's lines make, and what of a line a refusal tells.
#![tactic(auto)]

pub mod making;
pub mod spot;
