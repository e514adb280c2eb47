//! The parts of a point key.
ghost use Rattle.std.specs.Prelude.{◌≡◌, ◌<◌, ◌++◌, [], ◌∷◌, length, slice_index_or, OnOk, OnErr};
ghost use Rattle.seed_expansion.specs.Walk.{no_correction};

use seed_expansion::Correction;
use std::alloc::{AllocError, Global};
use std::marker::Model;

/// The corrections of a key, from the root down, seen as a list.
#[derive(Debug, Drop)]
pub struct Corrections {
    items: Vec<Correction>,
}

impl Model for Corrections {
    ghost use Rattle.std.specs.Prelude.{List};
    ghost use Rattle.seed_expansion.specs.declared.nodes.Correction.{Correction};

    ghost Value = { List Correction };

    ghost view = { λ list. list.items.items };
}

impl Corrections {
    /// No correction. It allocates nothing yet.
    pub fn new(alloc: Global) -> Self
        ensures { result ≡ [] }
    {
        Corrections {
            items: Vec::new(alloc),
        }
    }

    /// The list of a vector's items.
    pub fn from_vec(items: Vec<Correction>) -> Self
        ensures { result ≡ items.items }
    {
        Corrections { items }
    }

    /// Adds the correction of the next level. Where memory is short, the list stays as it was.
    pub fn push(&mut self, correction: Correction) -> Result<(), AllocError>
        ensures ok { OnOk result (self.new ≡ self.old ++ correction ∷ []) }
        ensures err { OnErr result (self.new ≡ self.old) }
    {
        self.items.push(correction)?;
        Ok(())
    }

    /// The number of levels.
    pub fn len(&self) -> usize
        ensures { result ≡ length self.now }
    {
        self.items.len()
    }

    /// The correction of a level, counted from the root.
    pub fn at(&self, level: u32) -> Correction
        requires { level < length self.now }
        ensures { result ≡ slice_index_or self.now level no_correction }
    {
        self.items[level as usize]
    }

    /// The corrections as a slice.
    pub fn as_slice(&self) -> &[Correction]
        ensures { result.now ≡ self.now }
    {
        self.items.as_slice()
    }
}

impl Clone for Corrections {
    ghost is_clone = { λ list copy. copy ≡ list };

    fn clone(&self) -> Result<Self, AllocError> {
        Ok(Corrections {
            items: self.items.clone()?,
        })
    }
}

/// One of the two keys of a point tree, which has as many levels as its numbers have bits.
#[derive(Debug, Drop)]
pub struct PointKey {
    /// The seed of the provider's root. The rest is the same in both keys.
    pub root: u128,
    pub levels: Corrections,
    /// The word that counts at a leaf whose control bit is set.
    pub last: u64,
}
