//! Laws of combined answers. Each function does nothing: its clauses are the laws.
ghost use Rattle.std.specs.Prelude.{◌≡◌, ◌↔◌, ℕ, ◌<◌, ◌^◌, All, IsTrue, true, List, [], ◌∷◌, length, map, Ok};
ghost use Rattle.std.specs.List.{flat_map};
ghost use Rattle.spl_values.specs.Kinds.{is_kind};
ghost use Rattle.spl_values.specs.Shapes.{SchemaParts, IsSchema};
ghost use Rattle.spl_values.specs.Tables.{TableParts, IsTable};
ghost use Rattle.spl_values.specs.declared.kinds.ColumnType.{ColumnType};
ghost use Rattle.cell_merge.specs.Rows.{Row, Apart};
ghost use Rattle.cell_merge.specs.Cells.{Addends, cell, cell_width, merge_all};
ghost use Rattle.cell_merge.specs.declared.spec.CellSpec.{CellSpec};
ghost use Rattle.query_reader.specs.declared.checked.Checked.{Checked as TheChecked};
ghost use Rattle.query_reader.specs.Accepted.{IsCheckedFor};
ghost use Rattle.clear_sql.specs.CellAnswers.{IsCode};
ghost use Rattle.key_frames.specs.declared.note.Note.{Note};
ghost use Rattle.answer_frames.specs.declared.answer.AnswerFrame.{AnswerFrame};
ghost use Rattle.combiner.specs.Combining.{combined};
ghost use Rattle.combiner.specs.GoodWords.{AreRowsOf, good_words, is_code};
ghost use Rattle.combiner.specs.Finals.{cells_in};

/// It doesn't matter which of the two answers is the first.
pub fn answers_come_in_either_order()
    ensures { (note : Note) (a b : AnswerFrame) (expected : ℕ) → combined note a b expected ≡ combined note b a expected }
{}

/// The test of codes takes exactly those that some value of the type has.
pub fn codes_are_those_of_values()
    ensures { (column : ColumnType) (code : ℕ) → IsTrue (is_kind column) → (is_code column code ≡ true) ↔ IsCode column code }
{}

/// The words of the cells of several lists of a table's rows are good, and are cut into these cells again. One cell alone,
/// merged into the cell of no rows, stays as it is.
pub fn cells_of_rows_are_good()
    ensures good { (adds : Addends) (checked : TheChecked) (table : TableParts) (rowses : List (List Row)) → IsTable table → IsCheckedFor checked table.shape.schema
        → All (AreRowsOf table) rowses
        → good_words table.shape.schema.columns checked.spec.items table.shape.rows 0 (flat_map (cell adds checked.spec) rowses) ≡ Ok tt }
    ensures cells { (adds : Addends) (checked : TheChecked) (schema : SchemaParts) (rowses : List (List Row)) → IsSchema schema → IsCheckedFor checked schema
        → cells_in (cell_width checked.spec) (flat_map (cell adds checked.spec) rowses) ≡ map (cell adds checked.spec) rowses }
    ensures alone { (adds : Addends) (spec : CellSpec) (rows : List Row) → Apart rows → length rows < 2 ^ 64 → merge_all spec (cell adds spec rows ∷ []) ≡ cell adds spec rows }
{}
