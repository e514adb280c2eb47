//! What the words of the command line mean.
#![tactic(auto)]

mod arguments;
mod command;
mod fault;
mod forms;
mod numbers;
mod values;

pub use command::{AnswerWords, CombineWords, Command, KeysWords, TraceWords};
pub use fault::FormFault;
pub use forms::command_of;
