//! What the two keys of a threshold tree give together, the two thresholds of an interval, and the
//! slots of some branches.
ghost use Rattle.std.specs.Prelude.{◌≡◌, ℕ, ◌<◌, ◌≤◌, if◌then◌else◌, List, length, sum_by, AllPairs, Option};
ghost use Rattle.seed_expansion.specs.Expanders.{Meaning, IsPure};
ghost use Rattle.interval_keys.specs.Thresholds.{ThresholdSharesAdd};
ghost use Rattle.interval_keys.specs.Intervals.{Span, SecretsAdd, EmptySecretsAdd, slot_value};
ghost use Rattle.interval_keys.specs.Slots.{EachSpan, IsSpan, ListsInOrder, allowed, ends, held, is_end, is_start, slots, starts};

/// For a pure expander the two shares add to `beta` up to `alpha` and to 0 above it, modulo 2^64.
pub fn threshold_shares_add()
    ensures { (e : Meaning) → IsPure e → ThresholdSharesAdd e }
{}

/// The functions of a slot's two secrets add to 1 inside the slot and to 0 outside, modulo 2^64.
pub fn interval_secrets_add()
    ensures interval { (bits : ℕ) (s : Span) → s.lo ≤ s.hi → SecretsAdd bits s }
    ensures empty { (bits : ℕ) → EmptySecretsAdd bits }
{}

/// The starts and the ends of intervals are listed in rising order, each once and no other number.
pub fn slot_ends_are_in_order()
    ensures starts { (l : List Span) → ListsInOrder (is_start l) (starts l) }
    ensures ends { (l : List Span) → ListsInOrder (is_end l) (ends l) }
{}

/// The slots of branches: each ends before the next begins, so that no number lies in two, and
/// together they hold what the branches' intervals hold. The values of all slots at a number add to
/// 1 where some interval holds it, and to 0 elsewhere.
pub fn slots_hold_what_intervals_hold()
    ensures apart { (b : List (Option Span)) → EachSpan IsSpan b → AllPairs (λ s t. s.hi < t.lo) (allowed (slots b)) }
    ensures held { (b : List (Option Span)) (x : ℕ) → EachSpan IsSpan b → held (allowed (slots b)) x ≡ held (allowed b) x }
    ensures value { (b : List (Option Span)) (x : ℕ) → EachSpan IsSpan b → sum_by (λ s. slot_value s x) (slots b) ≡ (if held (allowed b) x then 1 else 0) }
{}

/// The slots are as many as the branches, and each holds a number. They lie below what the intervals
/// lie below, and where each interval is a single number, so is each slot.
pub fn slots_are_like_intervals()
    ensures count { (b : List (Option Span)) → EachSpan IsSpan b → length (slots b) ≡ length b }
    ensures spans { (b : List (Option Span)) → EachSpan IsSpan b → EachSpan IsSpan (slots b) }
    ensures below { (b : List (Option Span)) (n : ℕ) → EachSpan IsSpan b → EachSpan (λ s. s.hi < n) b → EachSpan (λ s. s.hi < n) (slots b) }
    ensures single { (b : List (Option Span)) → EachSpan IsSpan b → EachSpan (λ s. s.lo ≡ s.hi) b → EachSpan (λ s. s.lo ≡ s.hi) (slots b) }
{}
