//! The entries that greatest, least and best rows are folded over: one for each joined key of the rows that
//! the public conditions of a query keep.
#![tactic(auto)]

mod cells;

pub use cells::key_cells;
