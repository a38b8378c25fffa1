// The lines of the day list as bytes: numbers, fields and whole lines.
#![tactic(auto)]

pub mod field;
pub mod lines;
mod number;
pub mod table;
