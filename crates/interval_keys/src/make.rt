//! Making the two keys of a threshold tree.
ghost use Rattle.std.specs.Prelude.{◌≡◌, ◌<◌, ◌≤◌, ◌^◌, IfOk, length};
ghost use Rattle.spl_words.specs.Secrets.{Secret};
ghost use Rattle.spl_words.specs.declared.secret.TreeKind.TheVariants.{Threshold};
ghost use Rattle.interval_keys.specs.Thresholds.{level_between, target, threshold_keys};

use crate::keys::{ThresholdKey, ThresholdLevel, ThresholdLevels};
use seed_expansion::{
    Block, Expander, child_of, correction_for, goes_right, last_word, place_of, root_of,
};
use spl_words::Provider;
use std::alloc::{AllocError, Global};

/// The keys of `Zero` and `One` whose shares add to `beta` at each number up to `alpha` and to 0
/// above it, among the numbers of `bits` bits. `bits` is 1 to 128 and `alpha` has no more; `roots` are
/// the seeds of `Zero` and of `One`.
pub fn make_threshold<E: Expander>(
    alloc: Global,
    expander: &E,
    tree: u32,
    bits: u32,
    alpha: u128,
    beta: u64,
    roots: (u128, u128),
) -> Result<(ThresholdKey, ThresholdKey), AllocError>
    requires some { 1 ≤ bits }
    requires bits { bits ≤ 128 }
    requires alpha { alpha < 2 ^ bits }
    ensures keys { IfOk result (λ keys. keys ≡ threshold_keys (E.meaning expander.now) tree (record { kind = Threshold; depth = bits; alpha = alpha; beta = beta }) roots) }
    ensures levels { IfOk result (λ keys. (length keys.0.levels ≡ bits) × (length keys.1.levels ≡ bits)) }
{
    let mut zero = root_of(Provider::Zero, roots.0);
    let mut one = root_of(Provider::One, roots.1);
    let mut levels = ThresholdLevels::new(alloc);
    for level in 0..bits {
        let keep_right = goes_right(bits, alpha, level);
        let place_zero = place_of(tree, Provider::Zero, bits, alpha, level);
        let place_one = place_of(tree, Provider::One, bits, alpha, level);
        let block_zero = expander.block(place_zero, zero.seed);
        let block_one = expander.block(place_one, one.seed);
        let row = level_for(
            keep_right,
            beta,
            (zero.bit, one.bit),
            &block_zero,
            &block_one,
        );
        levels.push(row)?;
        zero = child_of(keep_right, zero.bit, &block_zero, &row.correction);
        one = child_of(keep_right, one.bit, &block_one, &row.correction);
    }
    let leaf_zero = place_of(tree, Provider::Zero, bits, alpha, bits);
    let leaf_one = place_of(tree, Provider::One, bits, alpha, bits);
    let word_zero = expander.leaf(leaf_zero, zero.seed);
    let word_one = expander.leaf(leaf_one, one.seed);
    let last = last_word(beta, zero.bit, one.bit, word_zero, word_one);
    let copied = levels.clone()?;
    let key_zero = ThresholdKey {
        root: roots.0,
        levels,
        last,
    };
    let key_one = ThresholdKey {
        root: roots.1,
        levels: copied,
        last,
    };
    Ok((key_zero, key_one))
}

/// The level of both keys where `alpha` goes to the right, or to the left, from the bits and the
/// blocks of `Zero` and of `One` there.
#[tactic(auto, unfolding(crate::specs::Thresholds::level_between))]
pub fn level_for(
    keep_right: bool,
    beta: u64,
    bits: (bool, bool),
    zero: &Block,
    one: &Block,
) -> ThresholdLevel
    ensures { result ≡ level_between keep_right beta bits.0 bits.1 zero.now one.now }
{
    let left = target_of(keep_right, beta, false);
    let right = target_of(keep_right, beta, true);
    ThresholdLevel {
        correction: correction_for(keep_right, zero, one),
        word_l: last_word(left, bits.0, bits.1, zero.word_l, one.word_l),
        word_r: last_word(right, bits.0, bits.1, zero.word_r, one.word_r),
    }
}

/// What the two terms of a level add to on a side. To the left of `alpha`, and only there, they add
/// to `beta`.
pub fn target_of(keep_right: bool, beta: u64, right: bool) -> u64
    ensures { result ≡ target keep_right beta right }
{
    if keep_right && !right { beta } else { 0 }
}
