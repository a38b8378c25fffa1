// The day list's DAY line with dates in it.
#![tactic(auto)]

pub mod show;
mod words;
