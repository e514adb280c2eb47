//! Tests of queries, plans and clear answers.
#![tactic(auto)]

#[cfg(test)]
mod clear_answers;
#[cfg(test)]
mod fixtures;
#[cfg(test)]
mod parsing;
#[cfg(test)]
mod plans;
#[cfg(test)]
mod reading;
#[cfg(test)]
mod tokens;
