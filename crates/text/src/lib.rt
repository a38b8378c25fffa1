// The text form of a day, docs/TEXT.md: what a line is.
#![tactic(auto)]

mod dates_in;
mod fields;
pub mod line;
mod numbers_in;
mod values_in;
