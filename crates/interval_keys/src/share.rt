//! The share of one provider at one number.
ghost use Rattle.std.specs.Prelude.{◌≡◌, ◌<◌, ◌≤◌, ◌^◌, length};
ghost use Rattle.interval_keys.specs.Thresholds.{level_word_at, threshold_share};

use crate::keys::{ThresholdKey, ThresholdLevel};
use seed_expansion::{Expander, child_of, goes_right, leaf_share, place_of, root_of, word_of};
use spl_words::{Provider, plus};

/// The share of a provider under its key at `x`. The key has at most 128 levels, and `x` as many
/// bits as it has levels.
pub fn threshold_share<E: Expander>(
    expander: &E,
    provider: Provider,
    tree: u32,
    key: &ThresholdKey,
    x: u128,
) -> u64
    requires levels { length key.now.levels ≤ 128 }
    requires x { x < 2 ^ length key.now.levels }
    ensures { result ≡ threshold_share (E.meaning expander.now) provider tree key.now x }
{
    let depth = key.levels.len() as u32;
    let mut node = root_of(provider, key.root);
    let mut sum = 0;
    for level in 0..depth {
        let right = goes_right(depth, x, level);
        let block = expander.block(place_of(tree, provider, depth, x, level), node.seed);
        let row = key.levels.at(level);
        let word = word_of(right, &block);
        sum = plus(
            sum,
            leaf_share(provider, node.bit, word, level_word_of(right, &row)),
        );
        node = child_of(right, node.bit, &block, &row.correction);
    }
    let word = expander.leaf(place_of(tree, provider, depth, x, depth), node.seed);
    plus(sum, leaf_share(provider, node.bit, word, key.last))
}

/// A level's word on one side.
pub fn level_word_of(right: bool, row: &ThresholdLevel) -> u64
    ensures { result ≡ level_word_at right row.now }
{
    if right { row.word_r } else { row.word_l }
}
