//! The entries that the second round of a wide range is folded over: one for each position that a row has among
//! those that the public conditions of a query keep, by rising joined key.
#![tactic(auto)]

mod positions;

pub use positions::position_cells;
