//! Pairs of threshold keys: the toy rows worked by hand, the deepest pair, the secrets of slots, and lists of levels.
use crate::fixtures::shares;
use interval_keys::{
    Interval, ThresholdEval, ThresholdKey, ThresholdLevel, ThresholdLevels, interval_secrets,
    make_threshold,
};
use seed_expansion::{ChaChaExpander, Correction, Expander, ToyExpander};
use spl_words::{Provider, ShareFn, TreeKind, TreeSecret, plus};
use std::alloc::{AllocError, Global};

/// The shares at 0 and 1 of a provider under a key of one bit.
fn shares_under<E: Expander>(
    expander: &E,
    provider: Provider,
    key: &ThresholdKey,
) -> Option<(u64, u64)> {
    if key.levels.len() == 1 {
        shares(&ThresholdEval::new(expander, provider, 0, key))
    } else {
        None
    }
}

/// A pair of one bit that is made by the toy expander with beta 1 and the roots 1 and 2.
#[derive(Drop)]
struct Row {
    alpha: u128,
    level: ThresholdLevel,
    last: u64,
    zero: (u64, u64),
    one: (u64, u64),
}

const ALPHA_ZERO: Row = Row {
    alpha: 0,
    level: ThresholdLevel {
        correction: Correction {
            seed: 7,
            bit_l: false,
            bit_r: true,
        },
        word_l: 18_446_744_073_709_551_615,
        word_r: 18_446_744_073_709_551_614,
    },
    last: 7,
    zero: (14, 11),
    one: (18_446_744_073_709_551_603, 18_446_744_073_709_551_605),
};

const ALPHA_ONE: Row = Row {
    alpha: 1,
    level: ThresholdLevel {
        correction: Correction {
            seed: 1,
            bit_l: true,
            bit_r: false,
        },
        word_l: 18_446_744_073_709_551_614,
        word_r: 18_446_744_073_709_551_614,
    },
    last: 18_446_744_073_709_551_609,
    zero: (0, 11),
    one: (1, 18_446_744_073_709_551_606),
};

/// Whether a key of the pair has that root and the row's level and last word.
fn is_key(key: &ThresholdKey, root: u128, row: &Row) -> bool {
    let levels = key.levels.as_slice() == [row.level].as_slice();
    levels && key.root == root && key.last == row.last
}

/// Whether both keys of the row's pair are those, and give its shares.
fn is_pair(alloc: Global, row: &Row) -> Result<bool, AllocError> {
    let (zero, one) = make_threshold(alloc, &ToyExpander, 0, 1, row.alpha % 2, 1, (1, 2))?;
    let keys = is_key(&zero, 1, row) && is_key(&one, 2, row);
    let left = shares_under(&ToyExpander, Provider::Zero, &zero) == Some(row.zero);
    let right = shares_under(&ToyExpander, Provider::One, &one) == Some(row.one);
    Ok(keys && left && right)
}

#[test]
fn toy_pairs(rt: HostRuntime) {
    let found = [
        is_pair(rt.alloc(), &ALPHA_ZERO),
        is_pair(rt.alloc(), &ALPHA_ONE),
    ];
    assert_eq!(rt; found, [Ok(true); 2]);
}

#[test]
fn deep_chacha_pair(rt: HostRuntime) -> Result<(), AllocError> {
    let (zero, one) = make_threshold(rt.alloc(), &ChaChaExpander, 3, 128, 1 << 127, 5, (9, 9))?;
    let left = ThresholdEval::new(&ChaChaExpander, Provider::Zero, 3, &zero);
    let right = ThresholdEval::new(&ChaChaExpander, Provider::One, 3, &one);
    let alpha = 1 << 127;
    let sums = [
        plus(left.share(alpha), right.share(alpha)),
        plus(left.share(alpha + 1), right.share(alpha + 1)),
        plus(left.share(0), right.share(0)),
        plus(left.share(u128::MAX), right.share(u128::MAX)),
    ];
    assert_eq!(rt; sums, [5, 0, 5, 0]);
    Ok(())
}

/// The secret of a threshold among numbers of four bits.
fn secret(alpha: u128, beta: u64) -> TreeSecret {
    TreeSecret {
        kind: TreeKind::Threshold,
        depth: 4,
        alpha: alpha % 16,
        beta,
    }
}

#[test]
fn secrets_of_slots(rt: HostRuntime) {
    let found = [
        interval_secrets(4, Some(Interval { lo: 3, hi: 5 })),
        interval_secrets(4, Some(Interval { lo: 0, hi: 15 })),
        interval_secrets(4, None),
    ];
    assert_eq!(rt;
        found,
        [
            (secret(5, 1), secret(2, u64::MAX)),
            (secret(15, 1), secret(0, 0)),
            (secret(0, 0), secret(0, 0)),
        ]
    );
}

/// Whether a list of one level keeps it, as its clone does.
fn keeps(alloc: Global, level: ThresholdLevel) -> Result<bool, AllocError> {
    let mut list = ThresholdLevels::new(alloc);
    list.push(level)?;
    let again = list.clone()?.as_slice() == [level].as_slice();
    Ok(again && list.len() == 1)
}

#[test]
fn levels_hold_their_items(rt: HostRuntime) {
    assert_eq!(rt; keeps(rt.alloc(), ALPHA_ONE.level), Ok(true));
}
