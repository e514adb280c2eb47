//! Answer frames: what a provider sends back for a key frame, in its one spelling.
#![tactic(auto)]

mod answer;
pub mod laws;
mod reading;
mod writing;

pub use answer::AnswerFrame;
pub use reading::read_answer;
pub use writing::{fill_answer, write_answer};
