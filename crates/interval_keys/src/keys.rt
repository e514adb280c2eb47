//! The parts of a threshold key.
ghost use Rattle.std.specs.Prelude.{◌≡◌, ◌<◌, ◌++◌, [], ◌∷◌, length, slice_index_or, OnOk, OnErr};
ghost use Rattle.interval_keys.specs.Thresholds.{no_level};

use seed_expansion::Correction;
use std::alloc::{AllocError, Global};
use std::marker::Model;

/// What a threshold key holds for one level: its correction, and a word for each side, which counts
/// where the control bit above is set.
#[derive(Clone, Copy, Debug, PartialEq, Eq)]
pub struct ThresholdLevel {
    pub correction: Correction,
    pub word_l: u64,
    pub word_r: u64,
}

/// The levels of a key, from the root down, seen as a list.
#[derive(Debug, Drop)]
pub struct ThresholdLevels {
    items: Vec<ThresholdLevel>,
}

impl Model for ThresholdLevels {
    ghost use Rattle.std.specs.Prelude.{List};
    ghost use Rattle.interval_keys.specs.declared.keys.ThresholdLevel.{ThresholdLevel};

    ghost Value = { List ThresholdLevel };

    ghost view = { λ list. list.items.items };
}

impl ThresholdLevels {
    /// No level. It allocates nothing yet.
    pub fn new(alloc: Global) -> Self
        ensures { result ≡ [] }
    {
        ThresholdLevels {
            items: Vec::new(alloc),
        }
    }

    /// The list of a vector's items.
    pub fn from_vec(items: Vec<ThresholdLevel>) -> Self
        ensures { result ≡ items.items }
    {
        ThresholdLevels { items }
    }

    /// Adds the next level. Where memory is short, the list stays as it was.
    pub fn push(&mut self, level: ThresholdLevel) -> Result<(), AllocError>
        ensures ok { OnOk result (self.new ≡ self.old ++ level ∷ []) }
        ensures err { OnErr result (self.new ≡ self.old) }
    {
        self.items.push(level)?;
        Ok(())
    }

    /// The number of levels.
    pub fn len(&self) -> usize
        ensures { result ≡ length self.now }
    {
        self.items.len()
    }

    /// A level, counted from the root.
    pub fn at(&self, level: u32) -> ThresholdLevel
        requires { level < length self.now }
        ensures { result ≡ slice_index_or self.now level no_level }
    {
        self.items[level as usize]
    }

    /// The levels as a slice.
    pub fn as_slice(&self) -> &[ThresholdLevel]
        ensures { result.now ≡ self.now }
    {
        self.items.as_slice()
    }
}

impl Clone for ThresholdLevels {
    ghost is_clone = { λ list copy. copy ≡ list };

    fn clone(&self) -> Result<Self, AllocError> {
        Ok(ThresholdLevels {
            items: self.items.clone()?,
        })
    }
}

/// One of the two keys of a threshold tree, which has as many levels as its numbers have bits.
#[derive(Debug, Drop)]
pub struct ThresholdKey {
    /// The seed of the provider's root. The rest is the same in both keys.
    pub root: u128,
    pub levels: ThresholdLevels,
    /// The word that counts at a leaf whose control bit is set.
    pub last: u64,
}
