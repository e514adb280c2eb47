//! Which rows of a table match a query.
ghost use Rattle.std.specs.Prelude.{◌≡◌, ◌*◌, ◌<◌, All, [], ◌∷◌, true, length};
ghost use Rattle.cell_merge.specs.TableRows.{row_in};
ghost use Rattle.query_reader.specs.Matching.{branch_holds as branch_test, branch_params, some_branch_holds as branches_test};

use cell_merge::code_at;
use spl_values::Table;

/// Whether a range holds of a row, with the first two of these parameters.
fn range_holds(column: u32, params: &[u128], table: &Table, row: u32) -> bool
    requires row { row < table.now.shape.rows }
    requires column { column < length table.now.shape.schema.columns }
    ensures { result ≡ branch_test (column ∷ []) true params.now (row_in table.now row) }
{
    let code = code_at(table, row, column);
    match params {
        [least, greatest, ..] => *least <= code && code <= *greatest,
        _ => false,
    }
}

/// Whether a branch holds of a row, with the first of these parameters.
fn branch_holds(columns: &[u32], range: bool, params: &[u128], table: &Table, row: u32) -> bool
    requires row { row < table.now.shape.rows }
    requires columns { All (λ column. column < length table.now.shape.schema.columns) columns.now }
    ensures { result ≡ branch_test columns.now range params.now (row_in table.now row) }
{
    match columns {
        [] => true,
        [column, more @ ..] => {
            if range && more.is_empty() {
                return range_holds(*column, params, table, row);
            }
            match params {
                [] => false,
                [param, others @ ..] => {
                    code_at(table, row, *column) == *param
                        && branch_holds(more, range, others, table, row)
                }
            }
        }
    }
}

/// How many parameters a branch has.
fn param_count(columns: &[u32], range: bool) -> usize
    ensures { result ≡ branch_params columns.now range }
{
    if range {
        columns.len() + 1
    } else {
        columns.len()
    }
}

/// Whether one of so many branches holds of a row, counted from 0, each with its own parameters.
pub(crate) fn some_branch_holds(
    branches: u32,
    columns: &[u32],
    range: bool,
    params: &[u128],
    table: &Table,
    row: u32,
) -> bool
    requires row { row < table.now.shape.rows }
    requires columns { All (λ column. column < length table.now.shape.schema.columns) columns.now }
    requires params { length params.now ≡ branches * branch_params columns.now range }
    ensures { result ≡ branches_test branches columns.now range params.now (row_in table.now row) }
{
    let each = param_count(columns, range);
    for i in 0..branches {
        let at = i as usize * each;
        if branch_holds(columns, range, &params[at..at + each], table, row) {
            return true;
        }
    }
    false
}
