//! Tapes: what is drawn freshly for each place, in place of what a seed expands to.
ghost use Rattle.std.specs.Prelude.{◌≡◌, ◌≢◌, OnOk, OnErr, IfOk, Some, None};
ghost use Rattle.std.specs.List.Sorted.{IsStrictlySortedBy};
ghost use Rattle.seed_expansion.specs.Tapes.{HasWords, block_at, has_place, is_set, leaf_at, place_cmp, tape_meaning};

use crate::Expander;
use crate::nodes::{Block, Place};
use crate::tape_places::{TapePlaces, add_places, listed};
use std::alloc::{AllocError, Global};
use std::collections::{BTreeMap, BTreeSet};
use std::marker::Model;

/// Blocks and leaf words that are set at places.
#[derive(Debug, Drop)]
pub struct Tape {
    blocks: BTreeMap<Place, Block>,
    leaves: BTreeMap<Place, u64>,
}

impl Model for Tape {
    ghost use Rattle.seed_expansion.specs.Tapes.{Entries, HasWords, tape_meaning};

    ghost Value = { Entries };

    ghost view = { λ t. record { blocks = t.blocks.entries; leaves = t.leaves.entries } };

    ghost invariant = { λ t. HasWords (tape_meaning (record { blocks = t.blocks.entries; leaves = t.leaves.entries })) };
}

impl Tape {
    /// The tape on which no place is set. It allocates nothing yet.
    pub fn new(alloc: Global) -> Result<Tape, AllocError>
        ensures blocks { IfOk result (λ tape. (q : Place) → block_at tape q ≡ None) }
        ensures leaves { IfOk result (λ tape. (q : Place) → leaf_at tape q ≡ None) }
    {
        Ok(Tape {
            blocks: BTreeMap::new(alloc),
            leaves: BTreeMap::new(alloc),
        })
    }

    /// Sets the block of a place, in place of what stood there. Where memory is short, the tape stays
    /// as it was.
    pub fn set_block(&mut self, place: Place, block: Block) -> Result<(), AllocError>
        ensures here { OnOk result (block_at self.new place ≡ Some block) }
        ensures elsewhere { OnOk result ((q : Place) → q ≢ place → block_at self.new q ≡ block_at self.old q) }
        ensures leaves { OnOk result ((q : Place) → leaf_at self.new q ≡ leaf_at self.old q) }
        ensures err { OnErr result (self.new ≡ self.old) }
    {
        self.blocks.insert(place, block)?;
        Ok(())
    }

    /// Sets the leaf word of a place, in place of what stood there. Where memory is short, the tape
    /// stays as it was.
    pub fn set_leaf(&mut self, place: Place, word: u64) -> Result<(), AllocError>
        ensures here { OnOk result (leaf_at self.new place ≡ Some word) }
        ensures elsewhere { OnOk result ((q : Place) → q ≢ place → leaf_at self.new q ≡ leaf_at self.old q) }
        ensures blocks { OnOk result ((q : Place) → block_at self.new q ≡ block_at self.old q) }
        ensures err { OnErr result (self.new ≡ self.old) }
    {
        self.leaves.insert(place, word)?;
        Ok(())
    }

    /// The block that is set at a place.
    pub fn block_at(&self, place: Place) -> Option<Block>
        ensures { result ≡ block_at self.now place }
    {
        self.blocks.get(&place).copied()
    }

    /// The leaf word that is set at a place.
    pub fn leaf_at(&self, place: Place) -> Option<u64>
        ensures { result ≡ leaf_at self.now place }
    {
        self.leaves.get(&place).copied()
    }

    /// The places that have a block or a leaf word, each once, by rising tree, provider, level and
    /// prefix.
    ///
    /// # Errors
    ///
    /// Only for want of memory.
    pub fn set_places(&self, alloc: Global) -> Result<TapePlaces, AllocError>
        ensures rising { IfOk result (λ places. IsStrictlySortedBy place_cmp places) }
        ensures set { IfOk result (λ places. (q : Place) → has_place places q ≡ is_set self.now q) }
    {
        let mut places = BTreeSet::new(alloc);
        add_places(&mut places, &self.blocks)?;
        add_places(&mut places, &self.leaves)?;
        Ok(TapePlaces::from_vec(listed(alloc, &places)?))
    }

    /// The words of a tape are below 2^64. It does nothing: its clause says so of the value, which a
    /// clause over all numbers needs.
    pub fn words_fit(&self)
        ensures { HasWords (tape_meaning self.now) }
    {
        let _count = self.leaves.len();
    }
}

/// A tape as an expander: it reads no seed, and a place that isn't set as zeros.
#[derive(Clone, Copy, Debug)]
pub struct TapeExpander<'a> {
    pub tape: &'a Tape,
}

/// What is read at a place whose block isn't set.
const NO_BLOCK: Block = Block {
    seed_l: 0,
    bit_l: false,
    word_l: 0,
    seed_r: 0,
    bit_r: false,
    word_r: 0,
};

impl Expander for TapeExpander<'_> {
    ghost use Rattle.seed_expansion.specs.Tapes.{tape_meaning};

    ghost meaning = { λ e. tape_meaning e.tape.now };

    fn block(&self, place: Place, _seed: u128) -> Block {
        match self.tape.block_at(place) {
            Some(block) => block,
            None => NO_BLOCK,
        }
    }

    fn leaf(&self, place: Place, _seed: u128) -> u64 {
        self.tape.leaf_at(place).unwrap_or(0)
    }
}
