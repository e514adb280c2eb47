//! Answers of queries: the clear answer over a table, the answer that a cell stands for, and the text of an answer.
#![tactic(auto)]

mod answer;
mod clear_answers;
mod columns;
pub mod laws;
mod matching;
mod printing;
mod queries;
mod reading;

pub use answer::{Answer, Group, Groups, Outcome, Outcomes, TopRow, TopRows};
pub use clear_answers::clear_answer;
pub use queries::{answer_of_cell, print_answer};
