//! Lists that contracts see as lists.
ghost use Rattle.std.specs.Prelude.{◌≡◌};

use crate::condition::{Atom, Public};
use crate::item::Item;
use std::alloc::AllocError;
use std::marker::Model;

/// The items of a query, in order.
#[derive(Debug, Drop)]
pub struct Items {
    items: Vec<Item>,
}

impl Model for Items {
    ghost use Rattle.std.specs.Prelude.{List};
    ghost use Rattle.query_grammar.specs.declared.item.Item.{Item};

    ghost Value = { List Item };

    ghost view = { λ list. list.items.items };
}

impl Items {
    /// The list of these items.
    pub fn from_vec(items: Vec<Item>) -> Items
        ensures { result ≡ items.items }
    {
        Items { items }
    }

    /// The items, in order.
    pub fn as_slice(&self) -> &[Item]
        ensures { result.now ≡ self.now }
    {
        self.items.as_slice()
    }
}

impl Clone for Items {
    ghost is_clone = { λ list copy. copy ≡ list };

    fn clone(&self) -> Result<Items, AllocError> {
        Ok(Items {
            items: self.items.clone()?,
        })
    }
}

/// The public conditions of a query, in order.
#[derive(Debug, Drop)]
pub struct Publics {
    publics: Vec<Public>,
}

impl Model for Publics {
    ghost use Rattle.std.specs.Prelude.{List};
    ghost use Rattle.query_grammar.specs.declared.condition.Public.{Public};

    ghost Value = { List Public };

    ghost view = { λ list. list.publics.items };
}

impl Publics {
    /// The list of these conditions.
    pub fn from_vec(publics: Vec<Public>) -> Publics
        ensures { result ≡ publics.items }
    {
        Publics { publics }
    }

    /// The conditions, in order.
    pub fn as_slice(&self) -> &[Public]
        ensures { result.now ≡ self.now }
    {
        self.publics.as_slice()
    }
}

impl Clone for Publics {
    ghost is_clone = { λ list copy. copy ≡ list };

    fn clone(&self) -> Result<Publics, AllocError> {
        Ok(Publics {
            publics: self.publics.clone()?,
        })
    }
}

/// The atoms of one branch, in order.
#[derive(Debug, Drop)]
pub struct Atoms {
    atoms: Vec<Atom>,
}

impl Model for Atoms {
    ghost use Rattle.std.specs.Prelude.{List};
    ghost use Rattle.query_grammar.specs.declared.condition.Atom.{Atom};

    ghost Value = { List Atom };

    ghost view = { λ list. list.atoms.items };
}

impl Atoms {
    /// The list of these atoms.
    pub fn from_vec(atoms: Vec<Atom>) -> Atoms
        ensures { result ≡ atoms.items }
    {
        Atoms { atoms }
    }

    /// The atoms, in order.
    pub fn as_slice(&self) -> &[Atom]
        ensures { result.now ≡ self.now }
    {
        self.atoms.as_slice()
    }
}

impl Clone for Atoms {
    ghost is_clone = { λ list copy. copy ≡ list };

    fn clone(&self) -> Result<Atoms, AllocError> {
        Ok(Atoms {
            atoms: self.atoms.clone()?,
        })
    }
}

/// The branches of a query, in order: each is a list of atoms.
#[derive(Debug, Drop)]
pub struct Branches {
    branches: Vec<Atoms>,
}

impl Model for Branches {
    ghost use Rattle.std.specs.Prelude.{List};
    ghost use Rattle.query_grammar.specs.declared.condition.Atom.{Atom};

    ghost Value = { List (List Atom) };

    ghost view = { λ list. list.branches.items };
}

impl Branches {
    /// The list of these branches.
    pub fn from_vec(branches: Vec<Atoms>) -> Branches
        ensures { result ≡ branches.items }
    {
        Branches { branches }
    }

    /// The branches, in order.
    pub fn as_slice(&self) -> &[Atoms]
        ensures { result.now ≡ self.now }
    {
        self.branches.as_slice()
    }
}

impl Clone for Branches {
    ghost is_clone = { λ list copy. copy ≡ list };

    fn clone(&self) -> Result<Branches, AllocError> {
        Ok(Branches {
            branches: self.branches.clone()?,
        })
    }
}
