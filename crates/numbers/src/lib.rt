// Whole numbers: columns and sums, numbers as bytes and in decimal.
#![tactic(auto)]

pub mod bytes;
pub mod decimal;
pub mod each;
pub mod signed;
