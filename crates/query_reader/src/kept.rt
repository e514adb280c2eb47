//! Which rows of a table the public conditions of a query keep.
ghost use Rattle.std.specs.Prelude.{◌≡◌, ◌<◌, All, length};
ghost use Rattle.cell_merge.specs.TableRows.{row_in};
ghost use Rattle.query_reader.specs.Matching.{bound_holds as bound_test, is_kept as kept_test};

use cell_merge::code_at;
use spl_values::Table;

/// Whether a public condition holds of a row.
fn bound_holds(table: &Table, row: u32, bound: (u32, u128, u128)) -> bool
    requires row { row < table.now.shape.rows }
    requires column { bound.0 < length table.now.shape.schema.columns }
    ensures { result ≡ bound_test (row_in table.now row) bound }
{
    let (column, least, greatest) = bound;
    let code = code_at(table, row, column);
    least <= code && code <= greatest
}

/// Whether every public condition holds of a table's row, counted from 0: each says of a column,
/// counted from 0, the least and the greatest code that it takes. Takes no memory.
pub fn is_kept(bounds: &[(u32, u128, u128)], table: &Table, row: u32) -> bool
    requires row { row < table.now.shape.rows }
    requires columns { All (λ bound. bound.0 < length table.now.shape.schema.columns) bounds.now }
    ensures { result ≡ kept_test bounds.now (row_in table.now row) }
{
    for bound in bounds {
        if !bound_holds(table, row, *bound) {
            return false;
        }
    }
    true
}
