//! What a query asks of the two providers: which trees in which round, and their secrets.
#![tactic(auto)]

mod branches;
mod columns;
mod covers;
pub mod laws;
mod layout;
mod lengths;
mod plans;
mod positions;
mod rounds;
mod secrets;
mod slot_secrets;

pub use branches::slots;
pub use layout::plan;
pub use lengths::frame_length;
pub use plans::{Plan, PlanKind, Specs, is_built};
pub use rounds::{first_tree, trees_in};
pub use secrets::{SecretFault, Secrets, round_secrets};
pub use spl_words::KeySpec;
