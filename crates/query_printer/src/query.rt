ghost use Rattle.std.specs.Prelude.{◌≡◌};

use query_grammar::{Branches, Items, Publics};
use spl_values::Name;
use std::alloc::AllocError;
use std::marker::Model;

/// A query, seen as its parts. There is at least one item, no branch is empty, and a range stands
/// only last in its branch; every name is a word of at most 32 bytes that isn't reserved, and every
/// text is of printable bytes.
#[derive(Debug, Drop)]
pub struct Query {
    pub items: Items,
    pub table: Name,
    pub public: Publics,
    pub branches: Branches,
    pub group: Option<Name>,
}

impl Model for Query {
    ghost use Rattle.query_grammar.specs.Queries.{QueryParts};
    ghost use Rattle.query_tokens.specs.Printing.{IsWellFormed};

    ghost Value = { QueryParts };

    ghost view = { λ q. record { items = q.items; table = q.table; public = q.public; branches = q.branches; group = q.group } };

    ghost invariant = { λ q. IsWellFormed (record { items = q.items; table = q.table; public = q.public; branches = q.branches; group = q.group }) };

    ghost inverse = { λ q. record { items = q.items; table = q.table; public = q.public; branches = q.branches; group = q.group } };
}

impl Clone for Query {
    ghost is_clone = { λ query copy. copy ≡ query };

    fn clone(&self) -> Result<Query, AllocError> {
        Ok(Query {
            items: self.items.clone()?,
            table: self.table.clone()?,
            public: self.public.clone()?,
            branches: self.branches.clone()?,
            group: self.group.clone()?,
        })
    }
}

impl Query {
    ghost use Rattle.query_tokens.specs.Printing.{IsWellFormed};

    /// What every query keeps.
    pub fn facts(&self)
        ensures { IsWellFormed self.now }
    {
        let _items = &self.items;
    }
}
