//! What a provider computes for a key: the sum over a table's entries of the share at an entry's
//! number times its cell.
#![tactic(auto)]

mod fold;
mod gate;

pub use fold::{Lane, fold_shares};
pub use gate::{Gate, OpenGate};
