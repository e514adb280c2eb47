//! The map of tapes under which one provider's keys stay the same while the secrets change.
#![tactic(auto)]

mod exchange;
pub mod laws;
mod map;
mod moves;
mod trees;

pub use map::map_tape;
