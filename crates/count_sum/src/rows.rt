//! The key and the cell of each kept row.
ghost use Rattle.std.specs.Prelude.{◌≡◌, ◌++◌, ◌*◌, ◌^◌, ◌<◌, ◌≤◌, All, List, [], ◌∷◌, length, map, OnOk, IfOk};
ghost use Rattle.std.specs.List.{flat_map};
ghost use Rattle.cell_merge.specs.Rows.{Row};
ghost use Rattle.cell_merge.specs.Cells.{cell_width};
ghost use Rattle.cell_merge.specs.TableRows.{row_in};
ghost use Rattle.query_reader.specs.Accepted.{IsCheckedFor};
ghost use Rattle.count_sum.specs.SumPairs.{AreRowCells, sum_pairs};

use crate::kept::{is_kept, kept_count};
use cell_merge::{CellTable, cell_of_row, width};
use query_reader::{Checked, laws};
use spl_values::{Table, join_key};
use spl_words::{Numbers, Words};
use std::alloc::{AllocError, Global};

/// One entry for each row that the public conditions keep, in the rows' order: the row's joined key
/// over the columns of the query's branches, and the cell of that row alone. The lists are sized once.
///
/// # Errors
///
/// Want of memory.
pub fn row_cells(alloc: Global, checked: &Checked, table: &Table) -> Result<CellTable, AllocError>
    requires { IsCheckedFor checked.now table.now.shape.schema }
    ensures keys { IfOk result (λ t. t.keys ≡ map (λ p. p.0) (sum_pairs checked.now table.now)) }
    ensures cells { IfOk result (λ t. t.cells ≡ flat_map (λ p. p.1) (sum_pairs checked.now table.now)) }
    ensures width { IfOk result (λ t. t.width ≡ cell_width checked.now.spec) }
    ensures bits { IfOk result (λ t. All (λ x. x < 2 ^ checked.now.bits) t.keys) }
    ensures whole { IfOk result (λ t. length t.cells ≡ length t.keys * t.width) }
    ensures few { IfOk result (λ t. length t.keys ≤ table.now.shape.rows) }
{
    laws::accepted_has_cells();
    laws::accepted_has_keys();
    let rows = table.shape().rows;
    let words = width(&checked.spec);
    let kept = kept_count(checked, table);
    let mut keys = Vec::with_capacity(alloc, kept)?;
    let mut cells = Vec::with_capacity(alloc, kept * words as usize)?;
    let mut cell = vec![in alloc; 0; words as usize]?;
    for row in 0..rows {
        add_row(checked, table, row, &mut cell, &mut keys, &mut cells)?;
    }
    Ok(CellTable {
        keys: Numbers::from_vec(keys),
        cells: Words::from_vec(cells),
        width: words,
    })
}

/// Adds the key and the cell of a row, counted from 0, where it is kept. `cell` is room for a cell.
fn add_row(
    checked: &Checked,
    table: &Table,
    row: u32,
    cell: &mut [u64],
    keys: &mut Vec<u128>,
    cells: &mut Vec<u64>,
) -> Result<(), AllocError>
    requires checked { IsCheckedFor checked.now table.now.shape.schema }
    requires row { row < table.now.shape.rows }
    requires cell { length cell.old ≡ cell_width checked.now.spec }
    ensures { OnOk result ((rows : List Row) → AreRowCells checked.now table.now rows keys.old.items cells.old.items → AreRowCells checked.now table.now (rows ++ row_in table.now row ∷ []) keys.new.items cells.new.items) }
{
    if !is_kept(checked, table, row) {
        return Ok(());
    }
    laws::accepted_has_cells();
    laws::accepted_has_keys();
    keys.push(join_key(table, checked.columns.as_slice(), row))?;
    cell_of_row(&checked.spec, table, row, cell);
    cells.extend_from_slice(cell)?;
    Ok(())
}
