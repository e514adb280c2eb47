//! Expanders of seeds, and the walk down a tree that every kind of key shares: one level of it, and
//! the words at its end.
#![tactic(auto)]

mod chacha;
pub mod laws;
mod level;
mod nodes;
mod tape;
mod tape_places;
mod toy;
mod words;

ghost use Rattle.std.specs.Prelude.{◌≡◌};
ghost use Rattle.seed_expansion.specs.Expanders.{Meaning};

pub use chacha::ChaChaExpander;
pub use level::{child_of, correction_for, goes_right, place_of, root_of};
pub use nodes::{Block, Correction, Node, Place};
pub use tape::{Tape, TapeExpander};
pub use tape_places::TapePlaces;
pub use toy::ToyExpander;
pub use words::{last_word, leaf_share, word_of};

/// What expands a node's seed: a block and a leaf word for each place and seed.
pub trait Expander {
    ghost meaning: { Self → Meaning };

    /// The seeds, bits and words of both children.
    fn block(&self, place: Place, seed: u128) -> Block
        ensures { result ≡ (meaning self.now).block place seed };

    /// The word of a leaf.
    fn leaf(&self, place: Place, seed: u128) -> u64
        ensures { result ≡ (meaning self.now).leaf place seed };
}
