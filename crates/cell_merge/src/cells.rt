//! A list of cells with a number for each.

use spl_words::{Numbers, Words};

/// Numbers, such as keys of rows, and a cell for each: cell i is the i-th run of `width` words.
#[derive(Debug, Drop)]
pub struct CellTable {
    pub keys: Numbers,
    pub cells: Words,
    pub width: u64,
}
