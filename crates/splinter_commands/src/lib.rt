//! The commands: each from the words that it takes to the files that it leaves and the text that it comes to.
#![tactic(auto)]

mod answer;
mod combine;
mod dispatch;
mod keys;
pub mod laws;
mod refusals;
mod rounds;
mod sessions;
mod trace;

pub use dispatch::carry_out;
pub use keys::Question;
pub use trace::Traced;
