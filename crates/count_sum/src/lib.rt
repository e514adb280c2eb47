//! The entries that sums and counts are folded over: one for each row that the public conditions of
//! a query keep.
#![tactic(auto)]

mod kept;
mod rows;

pub use kept::{is_kept, kept_count};
pub use rows::row_cells;
