//! The roots of trees.
ghost use Rattle.std.specs.Prelude.{◌≡◌, ◌++◌, [], ◌∷◌, OnOk, OnErr};

use std::alloc::{AllocError, Global};
use std::marker::Model;

/// The roots of trees, in the order of their keys: the seed of each tree's root for `Zero`, and that for `One`.
#[derive(Debug, Drop)]
pub struct Roots {
    items: Vec<(u128, u128)>,
}

impl Model for Roots {
    ghost use Rattle.std.specs.Prelude.{List, ℕ};

    ghost Value = { List (ℕ × ℕ) };

    ghost view = { λ list. list.items.items };
}

impl Roots {
    /// The empty list. It allocates nothing yet.
    pub fn new(alloc: Global) -> Self
        ensures { result ≡ [] }
    {
        Roots {
            items: Vec::new(alloc),
        }
    }

    /// The list of a vector's items.
    pub fn from_vec(items: Vec<(u128, u128)>) -> Self
        ensures { result ≡ items.items }
    {
        Roots { items }
    }

    /// Adds the roots of the next tree. Where memory is short, the list stays as it was.
    pub fn push(&mut self, roots: (u128, u128)) -> Result<(), AllocError>
        ensures ok { OnOk result (self.new ≡ self.old ++ roots ∷ []) }
        ensures err { OnErr result (self.new ≡ self.old) }
    {
        self.items.push(roots)?;
        Ok(())
    }

    /// The items as a slice.
    pub fn as_slice(&self) -> &[(u128, u128)]
        ensures { result.now ≡ self.now }
    {
        self.items.as_slice()
    }
}
