//! Laws of answers. Each function does nothing: its clauses are the laws.
ghost use Rattle.std.specs.Prelude.{◌≡◌, ℕ, All, List, Ok, length};
ghost use Rattle.spl_values.specs.Shapes.{ColumnParts};
ghost use Rattle.spl_values.specs.Tables.{TableParts, IsTable};
ghost use Rattle.cell_merge.specs.declared.spec.CellItem.{CellItem};
ghost use Rattle.cell_merge.specs.declared.spec.CellSpec.{CellSpec};
ghost use Rattle.cell_merge.specs.Rows.{Row};
ghost use Rattle.cell_merge.specs.Cells.{blocks, cell, cell_width};
ghost use Rattle.cell_merge.specs.TableRows.{SpecFits, adds_in};
ghost use Rattle.query_reader.specs.declared.checked.Checked.{Checked as TheChecked};
ghost use Rattle.query_reader.specs.Accepted.{IsCheckedFor};
ghost use Rattle.query_reader.specs.Matching.{matching_rows};
ghost use Rattle.sum_bounds.specs.Bounds.{sums_bounded};
ghost use Rattle.clear_sql.specs.declared.answer.Outcome.{Outcome};
ghost use Rattle.clear_sql.specs.Clear.{clear, clear_item};
ghost use Rattle.clear_sql.specs.AnswerText.{GroupFits};
ghost use Rattle.clear_sql.specs.Meaning.{IsGroupOver, IsOutcome, RowsRise};
ghost use Rattle.clear_sql.specs.CellAnswers.{BlocksRead, answer_of};

/// The answer that a cell stands for can be printed.
pub fn answers_of_cells_can_be_printed()
    ensures { (columns : List ColumnParts) (spec : CellSpec) (cell : List ℕ) → SpecFits spec columns → length cell ≡ cell_width spec → BlocksRead columns spec.items (blocks spec.group spec.labels) cell
        → All (GroupFits columns spec) (answer_of columns spec cell) }
{}

/// The cell of the rows that match an accepted query can be read, and where the sums over all rows are within their bounds
/// it stands for the query's clear answer.
pub fn matching_cells_stand_for_clear_answers()
    ensures read { (checked : TheChecked) (params : List ℕ) (table : TableParts) → IsTable table → IsCheckedFor checked table.shape.schema
        → BlocksRead table.shape.schema.columns checked.spec.items (blocks checked.spec.group checked.spec.labels) (cell (adds_in table.shape.schema.columns) checked.spec (matching_rows checked params table)) }
    ensures clear { (checked : TheChecked) (params : List ℕ) (table : TableParts) → sums_bounded table checked.spec.items ≡ Ok tt
        → answer_of table.shape.schema.columns checked.spec (cell (adds_in table.shape.schema.columns) checked.spec (matching_rows checked params table)) ≡ clear table.shape.schema.columns checked.spec (matching_rows checked params table) }
{}

/// What a clear answer means. Over rows whose numbers rise, as those of a table that match do, each outcome of each group is
/// what its item gives over the group's rows: MAX and MIN a value that some row has and that none is above or below, NULL
/// exactly over no row; TOPK the first k of the rows in falling order of their sort values, equal ones in the table's order.
/// No other outcome is.
pub fn clear_answers_mean_their_items()
    ensures means { (columns : List ColumnParts) (spec : CellSpec) (rows : List Row) → RowsRise rows → All (IsGroupOver columns spec rows) (clear columns spec rows) }
    ensures alone { (columns : List ColumnParts) (rows : List Row) (item : CellItem) (outcome : Outcome) → RowsRise rows → IsOutcome columns rows item outcome → outcome ≡ clear_item columns item rows }
    ensures rise { (checked : TheChecked) (params : List ℕ) (table : TableParts) → RowsRise (matching_rows checked params table) }
{}
