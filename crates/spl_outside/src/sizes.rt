//! The sizes of the pieces in which bytes come.
ghost use Rattle.std.specs.Prelude.{◌≡◌, ◌<◌, [], drop};
ghost use Rattle.spl_outside.specs.Peers.{IsPiece};

use crate::queue::Queue;
use std::alloc::Global;
use std::marker::Model;

/// A list of sizes.
#[derive(Debug, Drop)]
pub struct Sizes {
    items: Vec<u64>,
}

impl Model for Sizes {
    ghost use Rattle.std.specs.Prelude.{List, ℕ};

    ghost Value = { List ℕ };

    ghost view = { λ list. list.items.items };
}

impl Sizes {
    /// The list of a vector's items.
    pub fn from_vec(items: Vec<u64>) -> Self
        ensures { result ≡ items.items }
    {
        Sizes { items }
    }
}

/// The sizes of the pieces still to come.
#[derive(Drop)]
pub struct Pieces {
    sizes: Queue,
}

impl Model for Pieces {
    ghost use Rattle.std.specs.Prelude.{List, ℕ};

    ghost Value = { List ℕ };

    ghost view = { λ s. s.sizes };
}

impl Pieces {
    /// No piece has a limit.
    pub fn whole(alloc: Global) -> Self
        ensures { result ≡ [] }
    {
        Pieces {
            sizes: Queue::new(Vec::new(alloc)),
        }
    }

    /// Pieces of these sizes.
    pub fn new(sizes: Sizes) -> Self
        ensures { result ≡ sizes }
    {
        Pieces {
            sizes: Queue::new(sizes.items),
        }
    }

    /// The most bytes of the next piece.
    pub fn next_size(&mut self) -> usize
        ensures some { 0 < result }
        ensures piece { IsPiece self.old result }
        ensures rest { self.new ≡ drop 1 self.old }
    {
        match self.sizes.take() {
            Some(size) => (size as usize).max(1),
            None => usize::MAX,
        }
    }
}
