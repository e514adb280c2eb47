//! The clear answer of a query over a table.
ghost use Rattle.std.specs.Prelude.{◌≡◌, ◌+◌, ◌<◌, ◌&&◌, All, length, replicate, IfOk, Ok};
ghost use Rattle.cell_merge.specs.Cells.{cell, cell_width};
ghost use Rattle.cell_merge.specs.TableRows.{adds_in, row_in};
ghost use Rattle.query_reader.specs.Accepted.{IsCheckedFor};
ghost use Rattle.query_reader.specs.Matching.{is_kept as kept_test, matching_rows, some_branch_holds as branches_test};
ghost use Rattle.query_reader.specs.Params.{AreParamsFor};
ghost use Rattle.sum_bounds.specs.Bounds.{sums_bounded};
ghost use Rattle.clear_sql.specs.AnswerText.{GroupFits};
ghost use Rattle.clear_sql.specs.Clear.{clear};
ghost use Rattle.clear_sql.specs.FirstRows.{first_matching};
ghost use Rattle.clear_sql.specs.Meaning.{IsGroupOver};

use crate::matching::some_branch_holds;
use crate::reading::cell_answer;
use crate::{Answer, laws};
use cell_merge::{cell_of_row, merge_into, width};
use query_reader::{Checked, Params, is_kept, laws as query_laws};
use spl_values::Table;
use std::alloc::{AllocError, Global};

/// Whether a row matches.
fn matches(checked: &Checked, params: &Params, table: &Table, row: u32) -> bool
    requires row { row < table.now.shape.rows }
    requires checked { IsCheckedFor checked.now table.now.shape.schema }
    requires params { AreParamsFor checked.now table.now.shape.schema params.now }
    ensures { result ≡ (kept_test checked.now.public (row_in table.now row) && branches_test checked.now.branches checked.now.columns checked.now.range params.now (row_in table.now row)) }
{
    query_laws::accepted_has_keys();
    is_kept(checked.public.as_slice(), table, row)
        && some_branch_holds(
            checked.branches,
            checked.columns.as_slice(),
            checked.range,
            params.as_slice(),
            table,
            row,
        )
}

/// Merges the cell of a row, where it matches, into that of the rows before it. `own` is room for the row's cell.
fn take_row(
    checked: &Checked,
    params: &Params,
    table: &Table,
    row: u32,
    own: &mut [u64],
    all: &mut [u64],
)
    requires row { row < table.now.shape.rows }
    requires checked { IsCheckedFor checked.now table.now.shape.schema }
    requires params { AreParamsFor checked.now table.now.shape.schema params.now }
    requires own { length own.old ≡ cell_width checked.now.spec }
    requires all { all.old ≡ cell (adds_in table.now.shape.schema.columns) checked.now.spec (first_matching checked.now params.now table.now row) }
    ensures own { length own.new ≡ cell_width checked.now.spec }
    ensures all { all.new ≡ cell (adds_in table.now.shape.schema.columns) checked.now.spec (first_matching checked.now params.now table.now (row + 1)) }
{
    query_laws::accepted_has_cells();
    let _ = table.shape();
    if !matches(checked, params, table, row) {
        return;
    }
    cell_of_row(&checked.spec, table, row, own);
    merge_into(&checked.spec, all, own);
}

/// So many words that are all 0.
fn zeros(alloc: Global, words: usize) -> Result<Vec<u64>, AllocError>
    ensures { IfOk result (λ zeros. zeros.items ≡ replicate words 0) }
{
    Ok(vec![in alloc; 0u64; words]?)
}

/// The cell of the rows that match.
fn matching_cell(
    alloc: Global,
    checked: &Checked,
    params: &Params,
    table: &Table,
) -> Result<Vec<u64>, AllocError>
    requires checked { IsCheckedFor checked.now table.now.shape.schema }
    requires params { AreParamsFor checked.now table.now.shape.schema params.now }
    ensures { IfOk result (λ words. words.items ≡ cell (adds_in table.now.shape.schema.columns) checked.now.spec (matching_rows checked.now params.now table.now)) }
{
    query_laws::accepted_has_cells();
    let words = width(&checked.spec) as usize;
    let mut own = zeros(alloc, words)?;
    let mut all = zeros(alloc, words)?;
    let rows = table.shape().rows;
    for row in 0..rows {
        take_row(checked, params, table, row, &mut own, &mut all);
    }
    Ok(all)
}

/// The clear answer, read from the cell of the rows that match.
fn answer_over(
    alloc: Global,
    checked: &Checked,
    params: &Params,
    table: &Table,
) -> Result<Answer, AllocError>
    requires checked { IsCheckedFor checked.now table.now.shape.schema }
    requires params { AreParamsFor checked.now table.now.shape.schema params.now }
    requires sums { sums_bounded table.now checked.now.spec.items ≡ Ok tt }
    ensures { IfOk result (λ answer. answer.groups ≡ clear table.now.shape.schema.columns checked.now.spec (matching_rows checked.now params.now table.now)) }
{
    query_laws::accepted_has_cells();
    laws::matching_cells_stand_for_clear_answers();
    let cell = matching_cell(alloc, checked, params, table)?;
    cell_answer(alloc, &checked.spec, &table.shape().schema, &cell)
}

/// The clear answer of a query over a table, by what SQL means by it: the public conditions hold of a row and some branch,
/// with its own parameters, does too; a row counts once, however many branches hold of it. The rows are walked once, in
/// order, and beside the answer two cells are all that is kept.
///
/// # Errors
///
/// Want of memory.
pub fn clear_answer(
    alloc: Global,
    checked: &Checked,
    params: &Params,
    table: &Table,
) -> Result<Answer, AllocError>
    requires checked { IsCheckedFor checked.now table.now.shape.schema }
    requires params { AreParamsFor checked.now table.now.shape.schema params.now }
    // The exact sum of each column under SUM or AVG, over all rows, is below 2^64.
    requires sums { sums_bounded table.now checked.now.spec.items ≡ Ok tt }
    ensures clear { IfOk result (λ answer. answer.groups ≡ clear table.now.shape.schema.columns checked.now.spec (matching_rows checked.now params.now table.now)) }
    ensures printable { IfOk result (λ answer. All (GroupFits table.now.shape.schema.columns checked.now.spec) answer.groups) }
    // Each outcome is what its item means over the rows of its group.
    ensures meaning { IfOk result (λ answer. All (IsGroupOver table.now.shape.schema.columns checked.now.spec (matching_rows checked.now params.now table.now)) answer.groups) }
{
    let _ = table.shape();
    answer_over(alloc, checked, params, table)
}
