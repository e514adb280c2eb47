//! The share of one provider at one number.
ghost use Rattle.std.specs.Prelude.{◌≡◌, ◌<◌, ◌≤◌, ◌^◌, length};
ghost use Rattle.point_keys.specs.Points.{point_share};

use crate::keys::PointKey;
use seed_expansion::{Expander, child_of, goes_right, leaf_share, place_of, root_of};
use spl_words::Provider;

/// The share of a provider under its key at `x`. The key has at most 128 levels, and `x` as many
/// bits as it has levels.
pub fn point_share<E: Expander>(
    expander: &E,
    provider: Provider,
    tree: u32,
    key: &PointKey,
    x: u128,
) -> u64
    requires levels { length key.now.levels ≤ 128 }
    requires x { x < 2 ^ length key.now.levels }
    ensures { result ≡ point_share (E.meaning expander.now) provider tree key.now x }
{
    let depth = key.levels.len() as u32;
    let mut node = root_of(provider, key.root);
    for level in 0..depth {
        let right = goes_right(depth, x, level);
        let block = expander.block(place_of(tree, provider, depth, x, level), node.seed);
        node = child_of(right, node.bit, &block, &key.levels.at(level));
    }
    let word = expander.leaf(place_of(tree, provider, depth, x, depth), node.seed);
    leaf_share(provider, node.bit, word, key.last)
}
