//! Laws of whole sessions: what a client's round, a provider's answers and the end of the session come to together.
#![tactic(auto)]

pub mod laws;
