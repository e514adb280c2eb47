//! What texts and codes are for a schema: the accepted query that a text is, and the parameters that
//! codes or words are, each as a function of the bytes.
#![tactic(auto)]

mod codes;
pub mod laws;
mod queries;

pub use codes::{judge_codes, judge_words};
pub use queries::{judge_query, judge_query_bytes};
