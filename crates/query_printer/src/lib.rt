//! Queries, and their canonical text.
#![tactic(auto)]

mod printer;
mod query;

pub use printer::print_query;
pub use query::Query;
pub use query_grammar::{Atom, Atoms, Branches, Item, Items, Literal, Public, Publics};
