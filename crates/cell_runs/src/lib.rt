//! Cells of the rows that share a number: neighbours in a list of cells that have one number are merged.
#![tactic(auto)]

pub mod laws;
mod runs;

pub use runs::merge_runs;
