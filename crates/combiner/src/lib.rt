//! What a client makes of two answers: their words, which add up to cells, and the answer that the merge of the cells stands
//! for.
#![tactic(auto)]

mod checking;
mod combining;
mod finals;
pub mod laws;

pub use combining::{CombineFault, combine_words};
pub use finals::{FinalFault, final_answer, last_words};
