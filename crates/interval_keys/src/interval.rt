//! Intervals of numbers, and the secrets of the two threshold trees that stand for one.
ghost use Rattle.std.specs.Prelude.{◌≡◌, ◌<◌, ◌≤◌, ◌^◌, IfSome};
ghost use Rattle.interval_keys.specs.Intervals.{interval_secrets, threshold};

use spl_words::{TreeKind, TreeSecret};
use std::marker::Model;

/// The numbers from `lo` to `hi`, both among them. `lo` is not above `hi`.
#[derive(Clone, Copy, Debug, Default, PartialEq, Eq)]
pub struct Interval {
    pub lo: u128,
    pub hi: u128,
}

impl Model for Interval {
    ghost use Rattle.std.specs.Prelude.{◌≤◌};
    ghost use Rattle.interval_keys.specs.Intervals.{Span};

    ghost Value = { Span };

    ghost view = { λ i. record { lo = i.lo; hi = i.hi } };

    ghost invariant = { λ i. i.lo ≤ i.hi };

    ghost inverse = { λ s. record { lo = s.lo; hi = s.hi } };
}

/// The secrets of two threshold trees of `bits` bits, 1 to 128, whose functions add to 1 inside the
/// slot and to 0 outside: 1 up to its upper end, and then minus 1 below its lower end. The slot's
/// numbers have no more bits. An empty slot has two functions that are 0 everywhere.
pub fn interval_secrets(bits: u32, slot: Option<Interval>) -> (TreeSecret, TreeSecret)
    requires some { 1 ≤ bits }
    requires bits { bits ≤ 128 }
    requires slot { IfSome slot (λ s. s.hi < 2 ^ bits) }
    ensures { result ≡ interval_secrets bits slot }
{
    match slot {
        None => (threshold(bits, 0, 0), threshold(bits, 0, 0)),
        Some(interval) if interval.lo == 0 => {
            (threshold(bits, interval.hi, 1), threshold(bits, 0, 0))
        }
        Some(interval) => (
            threshold(bits, interval.hi, 1),
            threshold(bits, interval.lo - 1, u64::MAX),
        ),
    }
}

/// The secret of a threshold tree.
fn threshold(bits: u32, alpha: u128, beta: u64) -> TreeSecret
    requires some { 1 ≤ bits }
    requires bits { bits ≤ 128 }
    requires alpha { alpha < 2 ^ bits }
    ensures { result ≡ threshold bits alpha beta }
{
    TreeSecret {
        kind: TreeKind::Threshold,
        depth: bits,
        alpha,
        beta,
    }
}
