//! The aligned ranges of an interval, from the smallest to the largest.
ghost use Rattle.std.specs.Prelude.{◌≡◌, ◌+◌, ◌-◌, ◌/◌, ◌≤◌, ◌^◌, ◌++◌, map};
ghost use Rattle.std.specs.List.{range_with_len};
ghost use Rattle.arrayvec.specs.ArrayVec.{array_vec_len};
ghost use Rattle.aligned_ranges.specs.Climbing.{outer};
ghost use Rattle.aligned_ranges.specs.Covers.{cover, range};

use crate::ranges::Range;
use arrayvec::ArrayVec;

/// The largest aligned ranges of levels below `w` that lie between `lo` and `hi`, by level and then by
/// index: each that lies there while its parent does not, and each of level `w - 1` that lies there.
/// They are at most two of a level. `w` is from 1 to 18, `lo` is not above `hi`, and the two have the
/// same bits above the lowest `w`.
pub fn cover(lo: u128, hi: u128, w: u32) -> ArrayVec<Range, 36>
    requires some { 1 ≤ w }
    requires most { w ≤ 18 }
    requires order { lo ≤ hi }
    requires subtree { lo / 2 ^ w ≡ hi / 2 ^ w }
    ensures { result.items ≡ cover lo hi w }
{
    let mut ranges = ArrayVec::new();
    // The ranges of a level that lie there are those from `base + start` to below `base + end`.
    let mut base = lo >> w << w;
    let mut start = lo - base;
    let mut end = hi - base + 1;
    for level in 0..w - 1 {
        push_outer(&mut ranges, level, base, start, end);
        base /= 2;
        start = start.div_ceil(2);
        end /= 2;
    }
    push_all(&mut ranges, w - 1, base, start, end);
    ranges
}

/// Of the ranges from `base + start` to below `base + end`, where `base` is even, adds the first if its
/// index is odd and the last if its index is even: the parent of another holds two of them.
fn push_outer(ranges: &mut ArrayVec<Range, 36>, level: u32, base: u128, start: u128, end: u128)
    requires room { array_vec_len ranges.old + 2 ≤ 36 }
    requires fits { base + end ≤ 2 ^ 128 }
    ensures items { ranges.new.items ≡ ranges.old.items ++ map (λ k. range level (base + k)) (outer start end) }
    ensures count { array_vec_len ranges.new ≤ array_vec_len ranges.old + 2 }
{
    if start < end && start % 2 == 1 {
        ranges.push(Range {
            level,
            index: base + start,
        });
    }
    if start < end && end % 2 == 1 {
        ranges.push(Range {
            level,
            index: base + (end - 1),
        });
    }
}

/// Adds the ranges from `base + start` to below `base + end`.
fn push_all(ranges: &mut ArrayVec<Range, 36>, level: u32, base: u128, start: u128, end: u128)
    requires room { array_vec_len ranges.old + (end - start) ≤ 36 }
    requires fits { base + end ≤ 2 ^ 128 }
    ensures { ranges.new.items ≡ ranges.old.items ++ map (λ k. range level (base + k)) (range_with_len start (end - start)) }
{
    for k in start..end {
        ranges.push(Range {
            level,
            index: base + k,
        });
    }
}
