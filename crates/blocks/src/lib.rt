// A block: its units checked and read into columns, judged by the steps, and its result laid.
#![tactic(auto)]

pub mod check;
mod columns;
mod lay;
pub mod result;
