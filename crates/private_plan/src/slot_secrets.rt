//! The secrets of slots: of joined keys in a first round, of positions in a second one.
ghost use Rattle.std.specs.Prelude.{◌≡◌, ◌≤◌, ◌<◌, ◌^◌, ◌++◌, All, IfOk, IfSome, ◌∷◌, []};
ghost use Rattle.std.specs.List.{AllByRecursion, flat_map};
ghost use Rattle.private_plan.specs.declared.plans.PlanKind.TheVariants as kind;
ghost use Rattle.private_plan.specs.Slots.{IsSlot, count_below as secret_below, count_secrets as secrets_of_counts, cover_secrets, point_secret as secret_of_point, position_slots};
ghost use Rattle.private_plan.specs.Rounds.{first_secrets};

use crate::covers::push_cover;
use crate::layout::Sizes;
use crate::plans::PlanKind;
use crate::positions::position_slot;
use interval_keys::{Interval, interval_secrets};
use spl_words::{TreeKind, TreeSecret};
use std::alloc::{AllocError, Global};

/// The secret of a slot of one number: the word 1 there.
fn point_secret(bits: u32, slot: Option<Interval>) -> TreeSecret
    requires some { 1 ≤ bits }
    requires bits { bits ≤ 128 }
    requires slot { IfSome slot (λ s. s.lo < 2 ^ bits) }
    ensures { result ≡ secret_of_point bits slot }
{
    let (alpha, beta) = match slot {
        None => (0, 0),
        Some(interval) => (interval.lo, 1),
    };
    TreeSecret {
        kind: TreeKind::Point,
        depth: bits,
        alpha,
        beta,
    }
}

/// The secret of the threshold that counts what is below a number: that of the interval from 0 to the number before it.
fn count_below(bits: u32, number: u128) -> TreeSecret
    requires some { 1 ≤ bits }
    requires bits { bits ≤ 128 }
    requires number { number < 2 ^ bits }
    ensures { result ≡ secret_below bits number }
{
    if number == 0 {
        return interval_secrets(bits, None).0;
    }
    let interval = Interval {
        lo: 0,
        hi: number - 1,
    };
    interval_secrets(bits, Some(interval)).0
}

/// The secrets of the two thresholds that count what is below a slot, and what is below or in it.
fn count_secrets(bits: u32, slot: Option<Interval>) -> (TreeSecret, TreeSecret)
    requires some { 1 ≤ bits }
    requires bits { bits ≤ 128 }
    requires slot { IfSome slot (λ s. (s.lo ≤ s.hi) × (s.hi < 2 ^ bits)) }
    ensures { result.0 ∷ result.1 ∷ [] ≡ secrets_of_counts bits slot }
{
    match slot {
        None => interval_secrets(bits, None),
        Some(interval) => (
            count_below(bits, interval.lo),
            interval_secrets(bits, slot).0,
        ),
    }
}

/// Adds two secrets.
fn push_both(
    secrets: &mut Vec<TreeSecret>,
    both: (TreeSecret, TreeSecret),
) -> Result<(), AllocError>
    ensures { IfOk result (λ _. secrets.new.items ≡ secrets.old.items ++ both.0 ∷ both.1 ∷ []) }
{
    secrets.push(both.0)?;
    secrets.push(both.1)?;
    Ok(())
}

/// Adds the secrets of a slot.
fn push_secrets(
    secrets: &mut Vec<TreeSecret>,
    sizes: &Sizes,
    slot: Option<Interval>,
) -> Result<(), AllocError>
    requires some { 1 ≤ sizes.now.last_bits }
    requires inside { sizes.now.last_bits ≤ sizes.now.bits }
    requires bits { sizes.now.bits ≤ 128 }
    requires narrow { sizes.now.kind ≡ kind.Aligned → sizes.now.last_bits ≤ 16 }
    requires slot { IfSome slot (IsSlot sizes.now.bits sizes.now.last_bits) }
    ensures { IfOk result (λ _. secrets.new.items ≡ secrets.old.items ++ first_secrets sizes.now.kind sizes.now.range sizes.now.bits sizes.now.last_bits slot) }
{
    match (sizes.kind, sizes.range) {
        (PlanKind::Sum, true) => push_both(secrets, interval_secrets(sizes.bits, slot)),
        (PlanKind::Sum, false) | (PlanKind::Point, _) => {
            secrets.push(point_secret(sizes.bits, slot))?;
            Ok(())
        }
        (PlanKind::Aligned, _) => push_cover(secrets, sizes.bits, sizes.last_bits, slot),
        (PlanKind::Position, _) => push_both(secrets, count_secrets(sizes.bits, slot)),
    }
}

/// The secrets of slots, slot by slot.
pub(crate) fn slots_secrets(
    alloc: Global,
    sizes: &Sizes,
    slots: &[Option<Interval>],
) -> Result<Vec<TreeSecret>, AllocError>
    requires some { 1 ≤ sizes.now.last_bits }
    requires inside { sizes.now.last_bits ≤ sizes.now.bits }
    requires bits { sizes.now.bits ≤ 128 }
    requires narrow { sizes.now.kind ≡ kind.Aligned → sizes.now.last_bits ≤ 16 }
    requires slots { All (λ slot. IfSome slot (IsSlot sizes.now.bits sizes.now.last_bits)) slots.now }
    ensures { IfOk result (λ secrets. secrets.items ≡ flat_map (first_secrets sizes.now.kind sizes.now.range sizes.now.bits sizes.now.last_bits) slots.now) }
{
    let mut secrets = Vec::new(alloc);
    for slot in slots {
        push_secrets(&mut secrets, sizes, *slot)?;
    }
    Ok(secrets)
}

/// The secrets of the slots of positions that counts tell, slot by slot.
pub(crate) fn positions_secrets(
    alloc: Global,
    bits: u32,
    counts: &[u64],
) -> Result<Vec<TreeSecret>, AllocError>
    requires some { 1 ≤ bits }
    requires most { bits ≤ 18 }
    requires slots { AllByRecursion (λ slot. IfSome slot (IsSlot bits bits)) (position_slots counts.now) }
    ensures { IfOk result (λ secrets. secrets.items ≡ flat_map (cover_secrets bits bits) (position_slots counts.now)) }
{
    let mut secrets = Vec::new(alloc);
    for pair in counts.chunks_exact(2) {
        push_cover(&mut secrets, bits, bits, position_slot(pair[0], pair[1]))?;
    }
    Ok(secrets)
}
