//! The shipped expander, over ChaCha with 20 rounds.
ghost use Rattle.std.specs.Prelude.{◌≡◌};
ghost use Rattle.rand_chacha.specs.ChaCha.{of_seed};
ghost use Rattle.seed_expansion.specs.ChaChaExpansion.{seed_bytes};
ghost use Rattle.seed_expansion.specs.Reading.{ahead, seed_next, wide_next};

use crate::Expander;
use crate::nodes::{Block, Place};
use rand_chacha::ChaCha20Rng;
use rand_core::SeedableRng;
use rand_core::utils::NextWord;

/// Expands a seed to the words of ChaCha with 20 rounds, keyed by the seed.
#[derive(Clone, Copy, Debug)]
pub struct ChaChaExpander;

/// The lower half of the key of a block, byte by byte.
const BLOCK_FILL: u8 = 0x00;

/// The lower half of the key of a leaf, byte by byte.
const LEAF_FILL: u8 = 0x01;

impl Expander for ChaChaExpander {
    ghost use Rattle.seed_expansion.specs.ChaChaExpansion.{chacha};

    ghost meaning = { λ _. chacha };

    fn block(&self, _place: Place, seed: u128) -> Block {
        let mut rng = started(BLOCK_FILL, seed);
        let seed_l = next_seed(&mut rng);
        let seed_r = next_seed(&mut rng);
        let bits = rng.next_word();
        let word_l = next_wide(&mut rng);
        let word_r = next_wide(&mut rng);
        Block {
            seed_l,
            bit_l: bits % 2 == 1,
            word_l,
            seed_r,
            bit_r: (bits / 2) % 2 == 1,
            word_r,
        }
    }

    fn leaf(&self, _place: Place, seed: u128) -> u64 {
        let mut rng = started(LEAF_FILL, seed);
        next_wide(&mut rng)
    }
}

/// The generator of a seed and a fill, at its first word.
fn started(fill: u8, seed: u128) -> ChaCha20Rng
    ensures { result ≡ of_seed (seed_bytes fill seed) }
{
    let mut bytes = [fill; 32];
    bytes[..16].copy_from_slice(&seed.to_be_bytes());
    ChaCha20Rng::from_seed(bytes)
}

/// The number of the next two words, the high one first.
fn next_wide(rng: &mut ChaCha20Rng) -> u64
    ensures value { result ≡ wide_next rng.old }
    ensures moved { rng.new ≡ ahead 2 rng.old }
{
    let high = rng.next_word();
    let low = rng.next_word();
    (u64::from(high) << 32) | u64::from(low)
}

/// The number of the next four words, the highest one first.
fn next_seed(rng: &mut ChaCha20Rng) -> u128
    ensures value { result ≡ seed_next rng.old }
    ensures moved { rng.new ≡ ahead 4 rng.old }
{
    let high = next_wide(rng);
    let low = next_wide(rng);
    (u128::from(high) << 64) | u128::from(low)
}
