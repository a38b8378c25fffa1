// The checks of Technical Rule 22 on one group given as columns.
#![tactic(auto)]

pub mod band;
pub mod check;
pub mod cut;
pub mod judge;
pub mod unit;
