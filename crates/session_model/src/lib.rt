//! What passes between a user and the two providers, and the laws of it: definitions alone, which the
//! program's parts meet.
#![tactic(auto)]

pub mod laws;
pub mod position_laws;
