//! An expander for rows that are worked by hand.
ghost use Rattle.std.specs.Prelude.{◌≡◌, ◌%◌, ◌^◌};

use crate::Expander;
use crate::nodes::{Block, Place};

/// Expands a seed to sums of itself. It hides nothing, and serves tests alone.
#[derive(Clone, Copy, Debug)]
pub struct ToyExpander;

impl Expander for ToyExpander {
    ghost use Rattle.seed_expansion.specs.Toy.{toy};

    ghost meaning = { λ _. toy };

    fn block(&self, _place: Place, seed: u128) -> Block {
        Block {
            seed_l: seed.wrapping_add(1),
            bit_l: seed % 2 == 1,
            word_l: low_word(seed),
            seed_r: seed.wrapping_add(2),
            bit_r: (seed / 2) % 2 == 1,
            word_r: low_word(seed).wrapping_mul(2),
        }
    }

    fn leaf(&self, _place: Place, seed: u128) -> u64 {
        low_word(seed).wrapping_mul(3)
    }
}

fn low_word(seed: u128) -> u64
    ensures { result ≡ seed % 2 ^ 64 }
{
    (seed % (1 << 64)) as u64
}
