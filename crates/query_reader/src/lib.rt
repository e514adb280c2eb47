//! Queries: read from a text, printed, and judged for a schema; and the codes of their parameters.
#![tactic(auto)]

mod check;
mod checked;
mod columns;
mod form;
mod kept;
pub mod laws;
mod names;
mod params;
mod sizes;
mod uses;

pub use check::check_query;
pub use checked::{Bounds, Checked};
pub use kept::is_kept;
pub use params::{ParamFault, Params, params_of_codes, params_of_words};
pub use query_parser::{
    Atom, Atoms, Branches, Item, Items, Literal, Public, Publics, Query, QueryFault, print_query,
    read_query,
};
pub use uses::{Role, Use};
