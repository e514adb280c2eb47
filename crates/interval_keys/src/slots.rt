//! The intervals of branches made disjoint.
ghost use Rattle.std.specs.Prelude.{◌≡◌, ◌+◌, ◌<◌, ◌≤◌, List, ◌∷◌, ◌++◌, length, Option, IfSome};
ghost use Rattle.arrayvec.specs.ArrayVec.{array_vec_len};
ghost use Rattle.interval_keys.specs.Intervals.{Span};
ghost use Rattle.interval_keys.specs.Slots.{EachSpan, IsSpan, allowed, padded, slots};
ghost use Rattle.interval_keys.specs.Merging.{add_span, add_spans, rest_with, room_for};

use crate::interval::Interval;
use arrayvec::ArrayVec;

/// The slots of at most 8 branches: disjoint intervals in rising order that together hold what the
/// branches' intervals hold, and then empty slots up to the number of branches. Intervals that
/// overlap become one slot; those that are merely adjacent stay two.
pub fn normalise_intervals(branches: &[Option<Interval>]) -> ArrayVec<Option<Interval>, 8>
    requires { length branches.now ≤ 8 }
    ensures slots { result.items ≡ slots branches.now }
    ensures count { array_vec_len result ≡ length branches.now }
    ensures intervals { EachSpan IsSpan branches.now }
{
    let mut disjoint: ArrayVec<Interval, 8> = ArrayVec::new();
    for branch in branches {
        disjoint = add_branch(disjoint, *branch);
    }
    pad(disjoint.as_slice(), branches.len())
}

/// Adds what one branch allows.
fn add_branch(disjoint: ArrayVec<Interval, 8>, branch: Option<Interval>) -> ArrayVec<Interval, 8>
    requires { array_vec_len disjoint < 8 }
    ensures list { (l : List (Option Span)) → add_spans result.items (allowed l) ≡ add_spans disjoint.items (allowed (branch ∷ l)) }
    ensures count { array_vec_len result ≤ array_vec_len disjoint + 1 }
    ensures interval { IfSome branch IsSpan }
{
    match branch {
        None => disjoint,
        Some(interval) => add_interval(disjoint.as_slice(), interval),
    }
}

/// Adds an interval to disjoint ones.
fn add_interval(disjoint: &[Interval], interval: Interval) -> ArrayVec<Interval, 8>
    requires { length disjoint.now < 8 }
    ensures list { result.items ≡ add_span interval disjoint.now }
    ensures count { array_vec_len result ≤ length disjoint.now + 1 }
    ensures interval { IsSpan interval }
{
    // Reading a field tells the proof that the interval holds a number.
    let _ = &interval.lo;
    let mut out = ArrayVec::new();
    let mut waiting = Some(interval);
    for next in disjoint {
        waiting = pass_on(&mut out, waiting, *next);
    }
    if let Some(last) = waiting {
        out.push(last);
    }
    out
}

/// Puts one of the disjoint intervals into `out`, behind the one that waits for its place where that
/// lies below it. Gives what waits from then on: nothing where it has its place, and where the two
/// meet, both as one interval.
fn pass_on(
    out: &mut ArrayVec<Interval, 8>,
    waiting: Option<Interval>,
    next: Interval,
) -> Option<Interval>
    requires { array_vec_len out.old + 1 + room_for waiting ≤ 8 }
    ensures count { array_vec_len out.new + room_for result ≤ array_vec_len out.old + 1 + room_for waiting }
    ensures items { (l : List Span) → out.new.items ++ rest_with result l ≡ out.old.items ++ rest_with waiting (next ∷ l) }
{
    let Some(current) = waiting else {
        out.push(next);
        return None;
    };
    if next.hi < current.lo {
        out.push(next);
        return Some(current);
    }
    if current.hi < next.lo {
        out.push(current);
        out.push(next);
        return None;
    }
    Some(Interval {
        lo: current.lo.min(next.lo),
        hi: current.hi.max(next.hi),
    })
}

/// The intervals as `count` slots, of which the last are empty.
fn pad(disjoint: &[Interval], count: usize) -> ArrayVec<Option<Interval>, 8>
    requires { (length disjoint.now ≤ count) × (count ≤ 8) }
    ensures slots { result.items ≡ padded count disjoint.now }
    ensures count { array_vec_len result ≡ count }
{
    let mut out = ArrayVec::new();
    for interval in disjoint {
        out.push(Some(*interval));
    }
    for _i in disjoint.len()..count {
        out.push(None);
    }
    out
}
