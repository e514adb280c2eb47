//! Pairs of point keys: the toy rows worked by hand, the deepest pair, and lists of corrections.
use crate::fixtures::shares;
use point_keys::{Corrections, PointEval, PointKey, make_point};
use seed_expansion::{ChaChaExpander, Correction, Expander, ToyExpander};
use spl_words::{Provider, ShareFn, plus};
use std::alloc::{AllocError, Global};

/// The shares at 0 and 1 of a provider under a key of one bit.
fn shares_under<E: Expander>(
    expander: &E,
    provider: Provider,
    key: &PointKey,
) -> Option<(u64, u64)> {
    if key.levels.len() == 1 {
        shares(&PointEval::new(expander, provider, 0, key))
    } else {
        None
    }
}

/// A pair of one bit that is made by the toy expander with alpha 1 and beta 1.
#[derive(Drop)]
struct Row {
    roots: (u128, u128),
    correction: Correction,
    last: u64,
    zero: (u64, u64),
    one: (u64, u64),
}

const ROOTS_APART: Row = Row {
    roots: (1, 2),
    correction: Correction {
        seed: 1,
        bit_l: true,
        bit_r: false,
    },
    last: 18_446_744_073_709_551_609,
    zero: (18_446_744_073_709_551_615, 9),
    one: (1, 18_446_744_073_709_551_608),
};

const ROOTS_EQUAL: Row = Row {
    roots: (5, 5),
    correction: Correction {
        seed: 0,
        bit_l: false,
        bit_r: true,
    },
    last: 18_446_744_073_709_551_615,
    zero: (17, 21),
    one: (18_446_744_073_709_551_599, 18_446_744_073_709_551_596),
};

/// Whether a key of the pair has that root and the row's correction and last word.
fn is_key(key: &PointKey, root: u128, row: &Row) -> bool {
    let levels = key.levels.as_slice() == [row.correction].as_slice();
    levels && key.root == root && key.last == row.last
}

/// Whether both keys of the row's pair are those, and give its shares.
fn is_pair(alloc: Global, row: &Row) -> Result<bool, AllocError> {
    let (zero, one) = make_point(alloc, &ToyExpander, 0, 1, 1, 1, row.roots)?;
    let keys = is_key(&zero, row.roots.0, row) && is_key(&one, row.roots.1, row);
    let left = shares_under(&ToyExpander, Provider::Zero, &zero) == Some(row.zero);
    let right = shares_under(&ToyExpander, Provider::One, &one) == Some(row.one);
    Ok(keys && left && right)
}

#[test]
fn toy_pairs(rt: HostRuntime) {
    let found = [
        is_pair(rt.alloc(), &ROOTS_APART),
        is_pair(rt.alloc(), &ROOTS_EQUAL),
    ];
    assert_eq!(rt; found, [Ok(true); 2]);
}

#[test]
fn deep_chacha_pair(rt: HostRuntime) -> Result<(), AllocError> {
    let (zero, one) = make_point(rt.alloc(), &ChaChaExpander, 3, 128, 1 << 127, 5, (9, 9))?;
    let left = PointEval::new(&ChaChaExpander, Provider::Zero, 3, &zero);
    let right = PointEval::new(&ChaChaExpander, Provider::One, 3, &one);
    let alpha = 1 << 127;
    let sums = [
        plus(left.share(alpha), right.share(alpha)),
        plus(left.share(alpha + 1), right.share(alpha + 1)),
        plus(left.share(0), right.share(0)),
        plus(left.share(u128::MAX), right.share(u128::MAX)),
    ];
    assert_eq!(rt; sums, [5, 0, 0, 0]);
    Ok(())
}

/// Whether a list of one correction keeps it, as its clone does.
fn keeps(alloc: Global, correction: Correction) -> Result<bool, AllocError> {
    let mut list = Corrections::new(alloc);
    list.push(correction)?;
    let again = list.clone()?.as_slice() == [correction].as_slice();
    Ok(again && list.len() == 1)
}

#[test]
fn corrections_hold_their_items(rt: HostRuntime) {
    let correction = Correction {
        seed: 4,
        bit_l: true,
        bit_r: false,
    };
    assert_eq!(rt; keeps(rt.alloc(), correction), Ok(true));
}
