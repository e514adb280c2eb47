//! Tables as comma-separated values: reading, writing and their digest.
#![tactic(auto)]

mod fault;
pub mod laws;
mod reading;
mod table_reader;
mod writing;

pub use fault::TableFault;
pub use table_reader::read_table;
pub use writing::{table_digest, write_table};
