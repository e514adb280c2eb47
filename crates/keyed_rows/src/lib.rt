//! The rows that the public conditions of a query keep, by rising joined key, and the cells of single rows
//! and of rows that share a key.
#![tactic(auto)]

mod cells;
mod merged;
mod rows;

pub use cells::cells_of;
pub use merged::merged_cells;
pub use rows::{KeyedRow, rows_by_key};
