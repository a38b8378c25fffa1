// The table of day state by record kind, and the walk over a day that lies whole in lent memory.
#![tactic(auto)]

pub mod step;
pub mod table;
pub mod walker;
