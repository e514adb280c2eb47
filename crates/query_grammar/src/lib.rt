//! The grammar of queries: its types, what each of its lines spells, and a machine that reads it
//! from the left and finds the first token that no query goes on with.
#![tactic(auto)]

mod condition;
mod item;
mod laws;
mod lists;
mod mode;
mod token;

pub use condition::{Atom, Literal, Public};
pub use item::Item;
pub use laws::{canonical_is_read, read_is_query, reading_is_grammar};
pub use lists::{Atoms, Branches, Items, Publics};
pub use mode::Mode;
pub use token::{Aggregate, Placed, Symbol, Token};
