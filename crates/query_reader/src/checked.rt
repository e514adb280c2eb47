//! What is known of a query once it is accepted for a schema.
ghost use Rattle.std.specs.Prelude.{◌≡◌};

use cell_merge::CellSpec;
use query_parser::Query;
use spl_words::Places;
use std::alloc::AllocError;
use std::marker::Model;

/// Bounds that public conditions set: a column, and the least and the greatest code that it takes.
#[derive(Debug, Drop)]
pub struct Bounds {
    bounds: Vec<(u32, u128, u128)>,
}

impl Model for Bounds {
    ghost use Rattle.std.specs.Prelude.{List, ℕ};

    ghost Value = { List (ℕ × ℕ × ℕ) };

    ghost view = { λ list. list.bounds.items };
}

impl Bounds {
    /// The list of these bounds.
    pub fn from_vec(bounds: Vec<(u32, u128, u128)>) -> Bounds
        ensures { result ≡ bounds.items }
    {
        Bounds { bounds }
    }

    /// The bounds, in order.
    pub fn as_slice(&self) -> &[(u32, u128, u128)]
        ensures { result.now ≡ self.now }
    {
        self.bounds.as_slice()
    }
}

/// An accepted query, with what its columns are in the schema.
#[derive(Debug, Drop)]
pub struct Checked {
    pub query: Query,
    /// What a cell of the query keeps; its `labels` are 1 without GROUP BY.
    pub spec: CellSpec,
    /// What the public conditions allow.
    pub public: Bounds,
    /// The columns of a branch, in order.
    pub columns: Places,
    /// Whether the last column of a branch is compared with two question marks.
    pub range: bool,
    /// How many branches there are, 1 to 8.
    pub branches: u32,
    /// The bits of the joined key, 1 to 128.
    pub bits: u32,
}
