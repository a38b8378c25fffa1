// A partner's export: a line read, and a line written.
#![tactic(auto)]

mod fields;
mod form;
mod lay;
mod limits;
pub mod line;
pub mod read;
pub mod write;
