//! The cells of single rows.
ghost use Rattle.std.specs.Prelude.{◌≡◌, ◌++◌, ◌*◌, ◌<◌, ◌≤◌, All, List, [], ◌∷◌, length, map, IfOk, OnOk};
ghost use Rattle.cell_merge.specs.Cells.{cell_width};
ghost use Rattle.query_reader.specs.Accepted.{IsCheckedFor};
ghost use Rattle.cell_runs.specs.CellsBy.{ArePairs};
ghost use Rattle.keyed_rows.specs.KeyedRows.{IsKeyed, row_pair};

use crate::rows::KeyedRow;
use cell_merge::{CellTable, cell_of_row, width};
use query_reader::{Checked, laws};
use spl_values::Table;
use spl_words::{Numbers, Words};
use std::alloc::{AllocError, Global};

/// One entry for each of some rows of a table: its key, and the cell of that row alone.
pub fn cells_of(
    alloc: Global,
    checked: &Checked,
    table: &Table,
    rows: &[KeyedRow],
) -> Result<CellTable, AllocError>
    requires checked { IsCheckedFor checked.now table.now.shape.schema }
    requires rows { All (IsKeyed checked.now table.now) rows.now }
    requires few { length rows.now ≤ 262144 }
    ensures pairs { IfOk result (λ t. ArePairs (cell_width checked.now.spec) (map (row_pair checked.now table.now) rows.now) t.keys t.cells) }
    ensures width { IfOk result (λ t. t.width ≡ cell_width checked.now.spec) }
    ensures whole { IfOk result (λ t. length t.cells ≡ length t.keys * t.width) }
{
    laws::accepted_has_cells();
    let words = width(&checked.spec);
    let mut keys = Vec::with_capacity(alloc, rows.len())?;
    let mut cells = Vec::with_capacity(alloc, rows.len() * words as usize)?;
    let mut cell = vec![in alloc; 0; words as usize]?;
    for keyed in rows {
        add_row(checked, table, *keyed, &mut cell, &mut keys, &mut cells)?;
    }
    Ok(CellTable {
        keys: Numbers::from_vec(keys),
        cells: Words::from_vec(cells),
        width: words,
    })
}

/// Adds the key and the cell of a row. `cell` is room for a cell.
fn add_row(
    checked: &Checked,
    table: &Table,
    keyed: KeyedRow,
    cell: &mut [u64],
    keys: &mut Vec<u128>,
    cells: &mut Vec<u64>,
) -> Result<(), AllocError>
    requires checked { IsCheckedFor checked.now table.now.shape.schema }
    requires row { keyed.row < table.now.shape.rows }
    requires cell { length cell.old ≡ cell_width checked.now.spec }
    ensures { OnOk result ((rows : List KeyedRow) → ArePairs (cell_width checked.now.spec) (map (row_pair checked.now table.now) rows) keys.old.items cells.old.items
        → ArePairs (cell_width checked.now.spec) (map (row_pair checked.now table.now) (rows ++ keyed ∷ [])) keys.new.items cells.new.items) }
{
    laws::accepted_has_cells();
    keys.push(keyed.key)?;
    cell_of_row(&checked.spec, table, keyed.row, cell);
    cells.extend_from_slice(cell)?;
    Ok(())
}
