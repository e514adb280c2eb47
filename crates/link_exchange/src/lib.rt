//! A round over two links: a request is sent to each side, and a reply is taken from each.
#![tactic(auto)]

mod exchanges;
mod replies;

pub use exchanges::{Bodies, RoundFault, Side, exchange};
pub use replies::{Body, LinkStop, ReplyFault, answer_in, take_reply};
