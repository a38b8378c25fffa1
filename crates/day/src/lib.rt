// A day: its value, a block checked for it, and a record or block offered to it.
#![tactic(auto)]

pub mod check;
mod head;
pub mod offer;
pub mod value;
