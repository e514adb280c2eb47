//! The cell of each key.
ghost use Rattle.std.specs.Prelude.{◌≡◌, ◌*◌, ◌^◌, ◌<◌, ◌≤◌, All, length, map, IfOk};
ghost use Rattle.std.specs.List.{flat_map};
ghost use Rattle.cell_merge.specs.Cells.{cell_width};
ghost use Rattle.query_reader.specs.Accepted.{IsCheckedFor};
ghost use Rattle.count_sum.specs.KeyCells.{key_pairs};

use cell_merge::CellTable;
use keyed_rows::{merged_cells, rows_by_key};
use query_reader::{Checked, laws};
use spl_values::Table;
use std::alloc::{AllocError, Global};

/// One entry for each joined key of the rows that the public conditions keep, over the columns of the query's
/// branches, by rising key: the key, and the cell of all kept rows that have it. The lists are sized once, for as many
/// cells as there are joined keys.
///
/// # Errors
///
/// Want of memory.
pub fn key_cells(alloc: Global, checked: &Checked, table: &Table) -> Result<CellTable, AllocError>
    requires { IsCheckedFor checked.now table.now.shape.schema }
    ensures keys { IfOk result (λ t. t.keys ≡ map (λ p. p.0) (key_pairs checked.now table.now)) }
    ensures cells { IfOk result (λ t. t.cells ≡ flat_map (λ p. p.1) (key_pairs checked.now table.now)) }
    ensures width { IfOk result (λ t. t.width ≡ cell_width checked.now.spec) }
    ensures bits { IfOk result (λ t. All (λ x. x < 2 ^ checked.now.bits) t.keys) }
    ensures whole { IfOk result (λ t. length t.cells ≡ length t.keys * t.width) }
    ensures few { IfOk result (λ t. length t.keys ≤ table.now.shape.rows) }
{
    laws::accepted_has_keys();
    // Reading the shape tells what the table keeps.
    let _ = table.shape();
    let rows = rows_by_key(alloc, checked, table)?;
    merged_cells(alloc, checked, table, &rows)
}
