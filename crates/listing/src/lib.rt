// The day list: one step of it.
#![tactic(auto)]

pub mod list;
