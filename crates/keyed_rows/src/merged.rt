//! The cells of runs of rows that have one key.
ghost use Rattle.std.specs.Prelude.{◌≡◌, ◌*◌, ◌≤◌, ◌<◌, ℕ, All, List, length, map, IfOk, OnOk};
ghost use Rattle.spl_values.specs.Tables.{TableParts};
ghost use Rattle.cell_merge.specs.Cells.{cell_width};
ghost use Rattle.query_reader.specs.Accepted.{IsCheckedFor};
ghost use Rattle.query_reader.specs.declared.checked.Checked.{Checked as CheckedValue};
ghost use Rattle.cell_runs.specs.CellsBy.{ArePairs};
ghost use Rattle.cell_runs.specs.Runs.{put_behind, runs};
ghost use Rattle.keyed_rows.specs.KeyedRows.{IsKeyed, row_pair};

use crate::rows::KeyedRow;
use cell_merge::{CellSpec, CellTable, cell_of_row, merge_into, width};
use query_reader::{Checked, laws};
use spl_values::Table;
use spl_words::{Numbers, Words};
use std::alloc::{AllocError, Global};

/// One entry for each run of neighbours with one key among some rows of a table: the key, and the cells of the rows
/// merged from the front. The lists are sized once, for as many cells as there are runs.
pub fn merged_cells(
    alloc: Global,
    checked: &Checked,
    table: &Table,
    rows: &[KeyedRow],
) -> Result<CellTable, AllocError>
    requires checked { IsCheckedFor checked.now table.now.shape.schema }
    requires rows { All (IsKeyed checked.now table.now) rows.now }
    requires few { length rows.now ≤ 262144 }
    ensures pairs { IfOk result (λ t. ArePairs (cell_width checked.now.spec) (runs checked.now.spec (map (row_pair checked.now table.now) rows.now)) t.keys t.cells) }
    ensures width { IfOk result (λ t. t.width ≡ cell_width checked.now.spec) }
    ensures whole { IfOk result (λ t. length t.cells ≡ length t.keys * t.width) }
{
    laws::accepted_has_cells();
    let words = width(&checked.spec);
    let count = run_count(rows);
    let mut keys = Vec::with_capacity(alloc, count)?;
    let mut cells = Vec::with_capacity(alloc, count * words as usize)?;
    let mut cell = vec![in alloc; 0; words as usize]?;
    for keyed in rows {
        cell_of_row(&checked.spec, table, keyed.row, &mut cell);
        put_cell(&checked.spec, keyed.key, &cell, &mut keys, &mut cells)?;
    }
    Ok(CellTable {
        keys: Numbers::from_vec(keys),
        cells: Words::from_vec(cells),
        width: words,
    })
}

/// How many runs of neighbours with one key there are.
fn run_count(rows: &[KeyedRow]) -> usize
    ensures runs { (checked : CheckedValue) (table : TableParts) → result ≡ length (runs checked.spec (map (row_pair checked table) rows.now)) }
    ensures few { result ≤ length rows.now }
{
    let mut count = 0;
    let mut last = None;
    for keyed in rows {
        if last != Some(keyed.key) {
            count += 1;
        }
        last = Some(keyed.key);
    }
    count
}

/// Puts a key and its cell behind others. Where the last of them has that key, the cell is merged into the last one,
/// which takes no memory.
fn put_cell(
    spec: &CellSpec,
    key: u128,
    cell: &[u64],
    keys: &mut Vec<u128>,
    cells: &mut Vec<u64>,
) -> Result<(), AllocError>
    requires cell { length cell.now ≡ cell_width spec.now }
    requires whole { length cells.old.items ≡ length keys.old.items * cell_width spec.now }
    ensures { OnOk result ((done : List (ℕ × List ℕ)) → ArePairs (cell_width spec.now) done keys.old.items cells.old.items
        → ArePairs (cell_width spec.now) (put_behind spec.now done (key, cell.now)) keys.new.items cells.new.items) }
{
    if keys.last() == Some(&key) {
        let start = cells.len() - cell.len();
        merge_into(spec, &mut cells[start..], cell);
        return Ok(());
    }
    keys.push(key)?;
    cells.extend_from_slice(cell)?;
    Ok(())
}
