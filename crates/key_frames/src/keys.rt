//! A key of either kind, and lists of them.
ghost use Rattle.std.specs.Prelude.{◌≡◌, ◌++◌, [], ◌∷◌, OnOk, OnErr};

use interval_keys::ThresholdKey;
use point_keys::PointKey;
use std::alloc::{AllocError, Global};
use std::marker::Model;

/// A key of a tree, of either kind.
#[derive(Debug, Drop)]
pub enum Key {
    /// The key of one number.
    Point(PointKey),
    /// The key of all numbers up to one.
    Threshold(ThresholdKey),
}

/// Keys, in the order of their trees, seen as a list.
#[derive(Debug, Drop)]
pub struct Keys {
    items: Vec<Key>,
}

impl Model for Keys {
    ghost use Rattle.std.specs.Prelude.{List};
    ghost use Rattle.key_frames.specs.declared.keys.Key.{Key};

    ghost Value = { List Key };

    ghost view = { λ list. list.items.items };
}

impl Keys {
    /// The empty list. It allocates nothing yet.
    pub fn new(alloc: Global) -> Self
        ensures { result ≡ [] }
    {
        Keys {
            items: Vec::new(alloc),
        }
    }

    /// The list of a vector's items.
    pub fn from_vec(items: Vec<Key>) -> Self
        ensures { result ≡ items.items }
    {
        Keys { items }
    }

    /// Adds the key of the next tree. Where memory is short, the list stays as it was.
    pub fn push(&mut self, key: Key) -> Result<(), AllocError>
        ensures ok { OnOk result (self.new ≡ self.old ++ key ∷ []) }
        ensures err { OnErr result (self.new ≡ self.old) }
    {
        self.items.push(key)?;
        Ok(())
    }

    /// The keys as a slice.
    pub fn as_slice(&self) -> &[Key]
        ensures { result.now ≡ self.now }
    {
        self.items.as_slice()
    }
}
