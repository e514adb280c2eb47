//! The secrets of a cover by aligned ranges: two points for each level.
ghost use Rattle.std.specs.Prelude.{◌≡◌, ℕ, ◌-◌, ◌≤◌, ◌<◌, ◌^◌, ◌++◌, ◌==◌, All, IfOk, IfSome, slice_get};
ghost use Rattle.std.specs.List.{filter};
ghost use Rattle.private_plan.specs.Slots.{IsSlot, cover_secrets, level_secrets, range_secret as secret_of_range, slot_level};

use aligned_ranges::{Range, cover};
use arrayvec::ArrayVec;
use interval_keys::Interval;
use spl_words::{TreeKind, TreeSecret};
use std::alloc::AllocError;

/// The range of a level at that place among those of the level, where there is one.
fn range_at(ranges: &[Range], level: u32, place: usize) -> Option<Range>
    ensures { result ≡ slice_get (filter (λ r. r.level == level) ranges.now) place }
{
    let mut left = place;
    for range in ranges {
        if range.level == level {
            if left == 0 {
                return Some(*range);
            }
            left -= 1;
        }
    }
    None
}

/// The secret of a tree for a range: the word 1 at its index. Without a range the tree is not used.
fn range_secret(bits: u32, range: Option<Range>) -> TreeSecret
    requires some { 1 ≤ bits }
    requires bits { bits ≤ 128 }
    requires range { IfSome range (λ r. r.index < 2 ^ bits) }
    ensures { result ≡ secret_of_range bits range }
{
    let (alpha, beta) = match range {
        None => (0, 0),
        Some(range) => (range.index, 1),
    };
    TreeSecret {
        kind: TreeKind::Point,
        depth: bits,
        alpha,
        beta,
    }
}

/// Adds the secrets of the two trees of a level, whose numbers have so many bits.
fn push_level(
    secrets: &mut Vec<TreeSecret>,
    bits: u32,
    level: u32,
    ranges: &[Range],
) -> Result<(), AllocError>
    requires some { 1 ≤ bits }
    requires bits { bits ≤ 128 }
    requires indices { All (λ r. r.index < 2 ^ bits) (filter (λ r. r.level == level) ranges.now) }
    ensures { IfOk result (λ _. secrets.new.items ≡ secrets.old.items ++ level_secrets bits (filter (λ r. r.level == level) ranges.now)) }
{
    secrets.push(range_secret(bits, range_at(ranges, level, 0)))?;
    secrets.push(range_secret(bits, range_at(ranges, level, 1)))?;
    Ok(())
}

/// The ranges of a slot's cover by levels below `width`; an empty slot has none.
fn cover_of(bits: u32, width: u32, slot: Option<Interval>) -> ArrayVec<Range, 36>
    requires some { 1 ≤ width }
    requires narrow { width ≤ 18 }
    requires inside { width ≤ bits }
    requires slot { IfSome slot (IsSlot bits width) }
    ensures levels { (level : ℕ) → level < width → filter (λ r. r.level == level) result.items ≡ slot_level width slot level }
    ensures indices { (level : ℕ) → level < width → All (λ r. r.index < 2 ^ (bits - level)) (filter (λ r. r.level == level) result.items) }
{
    match slot {
        None => ArrayVec::new(),
        Some(interval) => cover(interval.lo, interval.hi, width),
    }
}

/// Adds the secrets of a slot's cover by levels below `width`, level by level.
pub(crate) fn push_cover(
    secrets: &mut Vec<TreeSecret>,
    bits: u32,
    width: u32,
    slot: Option<Interval>,
) -> Result<(), AllocError>
    requires some { 1 ≤ width }
    requires narrow { width ≤ 18 }
    requires inside { width ≤ bits }
    requires bits { bits ≤ 128 }
    requires slot { IfSome slot (IsSlot bits width) }
    ensures { IfOk result (λ _. secrets.new.items ≡ secrets.old.items ++ cover_secrets bits width slot) }
{
    let ranges = cover_of(bits, width, slot);
    for level in 0..width {
        push_level(secrets, bits - level, level, ranges.as_slice())?;
    }
    Ok(())
}
