//! Making the two keys of a point tree.
ghost use Rattle.std.specs.Prelude.{◌≡◌, ◌<◌, ◌≤◌, ◌^◌, IfOk, length};
ghost use Rattle.spl_words.specs.Secrets.{Secret};
ghost use Rattle.spl_words.specs.declared.secret.TreeKind.TheVariants.{Point};
ghost use Rattle.point_keys.specs.Points.{point_keys};

use crate::keys::{Corrections, PointKey};
use seed_expansion::{
    Expander, child_of, correction_for, goes_right, last_word, place_of, root_of,
};
use spl_words::Provider;
use std::alloc::{AllocError, Global};

/// The keys of `Zero` and `One` whose shares add to `beta` at `alpha` and to 0 at every other number
/// of `bits` bits. `bits` is 1 to 128 and `alpha` has no more; `roots` are the seeds of `Zero` and of
/// `One`.
pub fn make_point<E: Expander>(
    alloc: Global,
    expander: &E,
    tree: u32,
    bits: u32,
    alpha: u128,
    beta: u64,
    roots: (u128, u128),
) -> Result<(PointKey, PointKey), AllocError>
    requires some { 1 ≤ bits }
    requires bits { bits ≤ 128 }
    requires alpha { alpha < 2 ^ bits }
    ensures keys { IfOk result (λ keys. keys ≡ point_keys (E.meaning expander.now) tree (record { kind = Point; depth = bits; alpha = alpha; beta = beta }) roots) }
    ensures levels { IfOk result (λ keys. (length keys.0.levels ≡ bits) × (length keys.1.levels ≡ bits)) }
{
    let mut zero = root_of(Provider::Zero, roots.0);
    let mut one = root_of(Provider::One, roots.1);
    let mut levels = Corrections::new(alloc);
    for level in 0..bits {
        let keep_right = goes_right(bits, alpha, level);
        let place_zero = place_of(tree, Provider::Zero, bits, alpha, level);
        let place_one = place_of(tree, Provider::One, bits, alpha, level);
        let block_zero = expander.block(place_zero, zero.seed);
        let block_one = expander.block(place_one, one.seed);
        let correction = correction_for(keep_right, &block_zero, &block_one);
        levels.push(correction)?;
        zero = child_of(keep_right, zero.bit, &block_zero, &correction);
        one = child_of(keep_right, one.bit, &block_one, &correction);
    }
    let leaf_zero = place_of(tree, Provider::Zero, bits, alpha, bits);
    let leaf_one = place_of(tree, Provider::One, bits, alpha, bits);
    let word_zero = expander.leaf(leaf_zero, zero.seed);
    let word_one = expander.leaf(leaf_one, one.seed);
    let last = last_word(beta, zero.bit, one.bit, word_zero, word_one);
    let copied = levels.clone()?;
    let key_zero = PointKey {
        root: roots.0,
        levels,
        last,
    };
    let key_one = PointKey {
        root: roots.1,
        levels: copied,
        last,
    };
    Ok((key_zero, key_one))
}
