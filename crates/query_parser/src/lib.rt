//! Queries read from texts, by a reader that keeps no second choice.
#![tactic(auto)]

mod condition_reader;
mod cursor;
mod fault;
mod found;
mod item_reader;
mod reader;

pub use fault::QueryFault;
pub use found::ends_in_a_range;
pub use query_printer::{
    Atom, Atoms, Branches, Item, Items, Literal, Public, Publics, Query, print_query,
};
pub use reader::read_query;
