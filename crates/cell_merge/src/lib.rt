//! Cells: the words that summarise some rows of a table, and how two cells are merged.
#![tactic(auto)]

mod cells;
mod entry;
pub mod laws;
mod merge;
mod row;
mod spec;
mod top;
mod widths;

pub use cells::CellTable;
pub use entry::Entry;
pub use merge::{empty_cell, merge_into};
pub use row::{cell_of_row, code_at, code_word, label_in, number_in};
pub use spec::{CellItem, CellItems, CellSpec};
pub use widths::{block_count, block_words, item_words, width};
