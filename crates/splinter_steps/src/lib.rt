//! The steps that commands share: reading files and what they describe, judging a query and its
//! parameters, and writing files. Each has as its contract the step of the definition.
#![tactic(auto)]

mod judging;
mod reading;
mod writing;

pub use judging::{Asked, judge};
pub use reading::{read_file, read_shape, read_table};
pub use writing::{Output, write_file, write_three};
