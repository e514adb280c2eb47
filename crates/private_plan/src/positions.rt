//! The counts that a first round tells, and the slots of positions that they make.
ghost use Rattle.std.specs.Prelude.{◌≡◌, ◌+◌, ◌≤◌, length};
ghost use Rattle.private_plan.specs.Counts.{counts_taken, not_below, pair_taken, within_rows};
ghost use Rattle.private_plan.specs.Slots.{position_slot as slot_of_positions};

use crate::secrets::SecretFault;
use interval_keys::Interval;

/// Refuses a count above so many rows.
fn check_rows(rows: u64, place: u32, count: u64) -> Result<(), SecretFault>
    ensures { result ≡ within_rows rows place count }
{
    if count > rows {
        Err(SecretFault::BadCount(place, count, rows))
    } else {
        Ok(())
    }
}

/// Refuses a count below the one before it.
fn check_order(least: u64, place: u32, count: u64) -> Result<(), SecretFault>
    ensures { result ≡ not_below least place count }
{
    if count < least {
        Err(SecretFault::BadCount(place, count, least))
    } else {
        Ok(())
    }
}

/// Refuses the first of the two counts of a slot that can't be.
fn check_pair(rows: u64, place: u32, below: u64, upto: u64) -> Result<(), SecretFault>
    requires { place + 1 ≤ 512 }
    ensures { result ≡ pair_taken rows place below upto }
{
    check_rows(rows, place, below)?;
    check_rows(rows, place + 1, upto)?;
    check_order(below, place + 1, upto)
}

/// Refuses the first count that can't be: one above the rows, or the second of a slot below the first.
pub(crate) fn check_counts(rows: u32, counts: &[u64]) -> Result<(), SecretFault>
    requires { length counts.now ≤ 512 }
    ensures { result ≡ counts_taken rows 0 counts.now }
{
    let mut place = 0;
    for pair in counts.chunks_exact(2) {
        check_pair(u64::from(rows), place, pair[0], pair[1])?;
        place += 2;
    }
    Ok(())
}

/// The positions from `below` on that are fewer than `upto`.
pub(crate) fn position_slot(below: u64, upto: u64) -> Option<Interval>
    ensures { result ≡ slot_of_positions below upto }
{
    if below < upto {
        Some(Interval {
            lo: u128::from(below),
            hi: u128::from(upto - 1),
        })
    } else {
        None
    }
}
