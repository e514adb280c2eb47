//! The bound that the sum of a column of numbers has to keep: below 2^64, over all rows.
#![tactic(auto)]

ghost use Rattle.std.specs.Prelude.{◌≡◌, ◌<◌, ◌↔◌, All, true, length, IfOk, IfErr, IsOk};
ghost use Rattle.cell_merge.specs.Cells.{addend};
ghost use Rattle.cell_merge.specs.TableRows.{HasColumns, adds_in, row_in, rows_of};
ghost use Rattle.sum_bounds.specs.Bounds.{first_over, item_bounded, sums_bounded, unless_over};
ghost use Rattle.sum_bounds.specs.Sums.{number_of, column_sum, is_bounded, IsFirstOver};

use cell_merge::CellItem;
use spl_values::{Table, Value};

/// The first row at which the sum of a column is 2^64 or more, counted from 0, and the sum of the
/// rows up to it.
#[derive(Clone, Copy, Debug, PartialEq, Eq)]
pub struct AtRow {
    /// The row.
    pub row: u32,
    /// The sum of the rows up to it and with it.
    pub sum: u128,
}

/// A column whose sum is 2^64 or more.
#[derive(Clone, Copy, Debug, PartialEq, Eq)]
pub struct SumFault {
    /// The column.
    pub column: u32,
    /// Where its sum first is.
    pub at: AtRow,
}

fn number_of(value: Value) -> u64
    ensures { result ≡ number_of value }
{
    match value {
        Value::Number(number) => number,
        _ => 0,
    }
}

/// What a row adds to the sum of a column.
fn number_at(table: &Table, row: u32, column: u32) -> u64
    requires row { row < table.now.shape.rows }
    requires column { column < length table.now.shape.schema.columns }
    ensures { result ≡ addend (adds_in table.now.shape.schema.columns) column (row_in table.now row) }
{
    let _ = table.shape();
    number_of(table.value(row, column))
}

/// The exact sum of a column of numbers over all rows, where that is below 2^64; else the first row
/// at which it is not.
pub fn check_sum(table: &Table, column: u32) -> Result<u64, AtRow>
    requires { column < length table.now.shape.schema.columns }
    ensures sum { IfOk result (λ sum. sum ≡ column_sum table.now.shape.schema.columns column (rows_of table.now)) }
    ensures bound { IsOk result ↔ (is_bounded table.now.shape.schema.columns column (rows_of table.now) ≡ true) }
    ensures first { IfErr result (λ at. IsFirstOver table.now.shape.schema.columns column (rows_of table.now) at.row at.sum) }
{
    let rows = table.shape().rows;
    let mut total = 0;
    for row in 0..rows {
        let sum = total as u128 + number_at(table, row, column) as u128;
        match u64::try_from(sum) {
            Ok(next) => total = next,
            Err(_) => return Err(AtRow { row, sum }),
        }
    }
    Ok(total)
}

/// Whether the sum of a column is within its bound.
fn check_column(table: &Table, column: u32) -> Result<(), SumFault>
    requires { column < length table.now.shape.schema.columns }
    ensures { result ≡ unless_over column (first_over table.now.shape.schema.columns column (rows_of table.now)) }
{
    match check_sum(table, column) {
        Ok(_) => Ok(()),
        Err(at) => Err(SumFault { column, at }),
    }
}

/// Whether an item has no sum, or one within its bound.
fn check_item(table: &Table, item: CellItem) -> Result<(), SumFault>
    requires { HasColumns table.now.shape.schema.columns item }
    ensures { result ≡ item_bounded table.now item }
{
    match item {
        CellItem::Sum(column) => check_column(table, column),
        CellItem::Avg(column) => check_column(table, column),
        _ => Ok(()),
    }
}

/// Whether the sum of each column under SUM or AVG, over all rows of the table, is below 2^64. Takes no memory.
///
/// # Errors
///
/// The first such column, in the order of the items, whose sum isn't, and the first row at which it isn't.
pub fn check_sums(table: &Table, items: &[CellItem]) -> Result<(), SumFault>
    requires { All (HasColumns table.now.shape.schema.columns) items.now }
    ensures { result ≡ sums_bounded table.now items.now }
{
    for item in items {
        check_item(table, *item)?;
    }
    Ok(())
}
