//! How a command ends: its status, the line and the number of each status, and the errors of the phases
//! that lead to one.
#![tactic(auto)]

mod convert;
mod frame_texts;
mod report;
mod status;
mod stops;
mod texts;

pub use report::{print, refuse};
pub use status::{Part, Status};
pub use stops::{InputStop, ReadStop, Refusal, Stopped};
pub use texts::{line, number_of};
