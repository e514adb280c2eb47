//! The rows that the public conditions of a query keep.
ghost use Rattle.std.specs.Prelude.{◌≡◌, ◌<◌, ◌≤◌, length};
ghost use Rattle.cell_merge.specs.TableRows.{row_in};
ghost use Rattle.query_reader.specs.Accepted.{IsCheckedFor};
ghost use Rattle.query_reader.specs.Matching.{is_kept as kept_test, kept_rows};

use query_reader::{Checked, laws};
use spl_values::Table;

/// How many rows of a table the public conditions of a query keep. Takes no memory.
pub fn kept_count(checked: &Checked, table: &Table) -> usize
    requires { IsCheckedFor checked.now table.now.shape.schema }
    ensures count { result ≡ length (kept_rows checked.now table.now) }
    ensures few { result ≤ table.now.shape.rows }
{
    let mut kept = 0;
    for row in 0..table.shape().rows {
        if is_kept(checked, table, row) {
            kept += 1;
        }
    }
    kept
}

/// Whether every public condition of a query holds of a table's row, counted from 0. Takes no memory.
pub fn is_kept(checked: &Checked, table: &Table, row: u32) -> bool
    requires checked { IsCheckedFor checked.now table.now.shape.schema }
    requires row { row < table.now.shape.rows }
    ensures { result ≡ kept_test checked.now.public (row_in table.now row) }
{
    laws::accepted_has_keys();
    query_reader::is_kept(checked.public.as_slice(), table, row)
}
