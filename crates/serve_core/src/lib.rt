//! Serves a connection: its whole requests are answered in order, up to the 4,096th.
#![tactic(auto)]

mod end;
pub mod laws;
mod replies;
mod serving;

pub use end::ServeEnd;
pub use serving::serve_connection;
