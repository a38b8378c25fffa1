// Writing house records: the three writers.
#![tactic(auto)]

pub mod block;
mod columns;
pub mod lay;
mod refuse;
pub mod single;
mod units;
