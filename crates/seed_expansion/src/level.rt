//! One level of a walk down a tree.
ghost use Rattle.std.specs.Prelude.{◌≡◌, ◌<◌, ◌≤◌, ◌^◌};
ghost use Rattle.seed_expansion.specs.Walk.{child, correction, place, prefix, root_bit, side};

use crate::nodes::{Block, Correction, Node, Place};
use spl_words::Provider;

/// The root of a provider's tree: its bit is 0 for `Zero` and 1 for `One`.
pub fn root_of(provider: Provider, seed: u128) -> Node
    ensures { result ≡ record { seed = seed; bit = root_bit provider } }
{
    Node {
        seed,
        bit: provider == Provider::One,
    }
}

/// The place after the first `level` of the `depth` bits of `x`.
pub fn place_of(tree: u32, provider: Provider, depth: u32, x: u128, level: u32) -> Place
    requires depth { depth ≤ 128 }
    requires level { level ≤ depth }
    requires x { x < 2 ^ depth }
    ensures { result ≡ place tree provider depth x level }
{
    Place {
        tree,
        provider,
        level,
        prefix: prefix_of(depth, x, level),
    }
}

/// The number made of the first `level` of the `depth` bits of `x`.
fn prefix_of(depth: u32, x: u128, level: u32) -> u128
    requires depth { depth ≤ 128 }
    requires level { level ≤ depth }
    requires x { x < 2 ^ depth }
    ensures { result ≡ prefix depth x level }
{
    if level == 0 { 0 } else { x >> (depth - level) }
}

/// Whether the bit after the first `level` of the `depth` bits of `x` is 1, which leads to the right.
pub fn goes_right(depth: u32, x: u128, level: u32) -> bool
    requires depth { depth ≤ 128 }
    requires level { level < depth }
    ensures { result ≡ side depth x level }
{
    (x >> (depth - (level + 1))) % 2 == 1
}

/// The child on one side of a node with this control bit and block.
#[tactic(auto, unfolding(crate::specs::Walk::child))]
pub fn child_of(right: bool, bit: bool, block: &Block, correction: &Correction) -> Node
    ensures { result ≡ child right bit block.now correction.now }
{
    let (seed, expanded, corrected) = if right {
        (block.seed_r, block.bit_r, correction.bit_r)
    } else {
        (block.seed_l, block.bit_l, correction.bit_l)
    };
    Node {
        seed: if bit { seed ^ correction.seed } else { seed },
        bit: expanded ^ (bit & corrected),
    }
}

/// The correction of a level where the secret number goes to the right, or to the left, from the
/// blocks of both providers there.
#[tactic(auto, unfolding(crate::specs::Walk::correction))]
pub fn correction_for(keep_right: bool, zero: &Block, one: &Block) -> Correction
    ensures { result ≡ correction keep_right zero.now one.now }
{
    Correction {
        seed: if keep_right {
            zero.seed_l ^ one.seed_l
        } else {
            zero.seed_r ^ one.seed_r
        },
        bit_l: zero.bit_l ^ one.bit_l ^ !keep_right,
        bit_r: zero.bit_r ^ one.bit_r ^ keep_right,
    }
}
