//! The cell of each position.
ghost use Rattle.std.specs.Prelude.{◌≡◌, ◌*◌, length, map, IfOk};
ghost use Rattle.std.specs.List.{flat_map, range_with_len};
ghost use Rattle.cell_merge.specs.Cells.{cell_width};
ghost use Rattle.query_reader.specs.Accepted.{IsCheckedFor};
ghost use Rattle.query_reader.specs.Matching.{kept_rows};
ghost use Rattle.count_sum.specs.Positions.{position_pairs};

use cell_merge::CellTable;
use keyed_rows::{cells_of, rows_by_key};
use query_reader::Checked;
use spl_values::Table;
use spl_words::Numbers;
use std::alloc::{AllocError, Global};

/// One entry for each row that the public conditions keep, by rising joined key over the columns of the query's
/// branches, and of one key in the rows' order: its position, from 0, and the cell of that row alone. The lists are
/// sized once.
///
/// # Errors
///
/// Want of memory.
pub fn position_cells(
    alloc: Global,
    checked: &Checked,
    table: &Table,
) -> Result<CellTable, AllocError>
    requires { IsCheckedFor checked.now table.now.shape.schema }
    ensures keys { IfOk result (λ t. t.keys ≡ map (λ p. p.0) (position_pairs checked.now table.now)) }
    ensures cells { IfOk result (λ t. t.cells ≡ flat_map (λ p. p.1) (position_pairs checked.now table.now)) }
    ensures width { IfOk result (λ t. t.width ≡ cell_width checked.now.spec) }
    ensures numbered { IfOk result (λ t. t.keys ≡ range_with_len 0 (length (kept_rows checked.now table.now))) }
    ensures whole { IfOk result (λ t. length t.cells ≡ length t.keys * t.width) }
{
    // Reading the shape tells what the table keeps.
    let _ = table.shape();
    let rows = rows_by_key(alloc, checked, table)?;
    let mut cells = cells_of(alloc, checked, table, &rows)?;
    cells.keys = Numbers::from_vec(counted(cells.keys.take()));
    Ok(cells)
}

/// The numbers from 0 on, as many as these.
fn counted(mut numbers: Vec<u128>) -> Vec<u128>
    ensures { result.items ≡ range_with_len 0 (length numbers.items) }
{
    for place in 0..numbers.len() {
        numbers[place] = place as u128;
    }
    numbers
}
