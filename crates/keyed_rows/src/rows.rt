//! The kept rows with their joined keys, in the order of the keys.
ghost use Rattle.std.specs.Prelude.{◌≡◌, ◌≤◌, ◌==◌, ℕ, All, length, map, IfOk};
ghost use Rattle.std.specs.List.{filter};
ghost use Rattle.std.specs.List.Sorted.{IsNonDecreasingBy, IsPermutation};
ghost use Rattle.query_reader.specs.Accepted.{IsCheckedFor};
ghost use Rattle.query_reader.specs.Matching.{kept_rows};
ghost use Rattle.keyed_rows.specs.KeyedRows.{IsKeyed, keyed};

use count_sum::{is_kept, kept_count};
use query_reader::{Checked, laws};
use spl_values::{Table, join_key};
use std::alloc::{AllocError, Global};

/// A row, counted from 0, with its joined key.
#[derive(Debug, Clone, Copy, Drop)]
pub struct KeyedRow {
    pub key: u128,
    pub row: u32,
}

/// The rows that the public conditions keep, with their joined keys, in the rows' order.
fn kept_with_keys(
    alloc: Global,
    checked: &Checked,
    table: &Table,
) -> Result<Vec<KeyedRow>, AllocError>
    requires { IsCheckedFor checked.now table.now.shape.schema }
    ensures rows { IfOk result (λ v. v.items ≡ map (keyed checked.now table.now) (kept_rows checked.now table.now)) }
    ensures keyed { IfOk result (λ v. All (IsKeyed checked.now table.now) v.items) }
    ensures few { IfOk result (λ v. length v.items ≤ 262144) }
{
    laws::accepted_has_keys();
    let mut keyed = Vec::with_capacity(alloc, kept_count(checked, table))?;
    for row in 0..table.shape().rows {
        if is_kept(checked, table, row) {
            keyed.push(KeyedRow {
                key: join_key(table, checked.columns.as_slice(), row),
                row,
            })?;
        }
    }
    Ok(keyed)
}

/// The kept rows with their joined keys, by rising key; those with one key in the rows' order.
pub fn rows_by_key(
    alloc: Global,
    checked: &Checked,
    table: &Table,
) -> Result<Vec<KeyedRow>, AllocError>
    requires { IsCheckedFor checked.now table.now.shape.schema }
    ensures rows { IfOk result (λ v. All (IsKeyed checked.now table.now) v.items) }
    ensures rising { IfOk result (λ v. IsNonDecreasingBy (λ k. k.key) v.items) }
    ensures same { IfOk result (λ v. (n : ℕ) → filter (λ k. k.key == n) v.items ≡ filter (λ k. k.key == n) (map (keyed checked.now table.now) (kept_rows checked.now table.now))) }
    ensures permutation { IfOk result (λ v. IsPermutation (map (keyed checked.now table.now) (kept_rows checked.now table.now)) v.items) }
    ensures few { IfOk result (λ v. length v.items ≤ 262144) }
{
    let mut keyed = kept_with_keys(alloc, checked, table)?;
    keyed.sort_by_key(|k| k.key)?;
    Ok(keyed)
}
