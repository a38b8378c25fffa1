// House records: their types and layouts, and reading them.
#![tactic(auto)]

pub mod age;
pub mod day;
pub mod end;
pub mod faults;
pub mod group;
pub mod group_result;
pub mod head;
pub mod key;
mod quantities;
pub mod unit;
pub mod unit_result;
pub mod units;
