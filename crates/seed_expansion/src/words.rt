//! The words at the end of a walk.
ghost use Rattle.std.specs.Prelude.{◌≡◌};
ghost use Rattle.seed_expansion.specs.Leaves.{last_word, leaf_share};
ghost use Rattle.seed_expansion.specs.Walk.{word_at};

use crate::nodes::Block;
use spl_words::{Provider, minus, plus, signed, times};

/// The word of both keys that makes the two shares add to `goal`, from the bits and the words of
/// both providers.
#[tactic(auto, unfolding(crate::specs::Leaves::last_word))]
pub fn last_word(goal: u64, bit_zero: bool, bit_one: bool, word_zero: u64, word_one: u64) -> u64
    ensures { result ≡ last_word goal bit_zero bit_one word_zero word_one }
{
    let sign = minus(u64::from(bit_zero), u64::from(bit_one));
    times(sign, plus(minus(goal, word_zero), word_one))
}

/// A provider's share from its bit, its word and the key's word.
#[tactic(auto, unfolding(crate::specs::Leaves::leaf_share))]
pub fn leaf_share(provider: Provider, bit: bool, word: u64, last: u64) -> u64
    ensures { result ≡ leaf_share provider bit word last }
{
    signed(provider, plus(word, if bit { last } else { 0 }))
}

/// A block's word on one side.
pub fn word_of(right: bool, block: &Block) -> u64
    ensures { result ≡ word_at right block.now }
{
    if right { block.word_r } else { block.word_l }
}
