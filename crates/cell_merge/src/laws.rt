//! Laws of cells. Each function does nothing: its clauses are the laws.

ghost use Rattle.std.specs.Prelude.{◌≡◌, ℕ, ◌<◌, ◌^◌, Bool, true, false, ◌||◌, List, [], length, map, ◌==◌};
ghost use Rattle.std.specs.List.{filter};
ghost use Rattle.cell_merge.specs.declared.spec.CellSpec.{CellSpec};
ghost use Rattle.cell_merge.specs.Rows.{Row, Interleaves, Apart, Distinct, one_of};
ghost use Rattle.spl_values.specs.Tables.{TableParts};
ghost use Rattle.cell_merge.specs.TableRows.{rows_of};
ghost use Rattle.cell_merge.specs.Cells.{Addends, cell, empty_cell, merge, merge_all};

/// The merge of the cells of disjoint lists of rows is the cell of their union: of two lists, of the rows that
/// pass one of two tests that exclude each other, and of the rows that have one of several numbers.
pub fn merged_cells_are_cells()
    ensures union { (adds : Addends) (spec : CellSpec) (a b c : List Row) → Interleaves a b c → Apart c → length c < 2 ^ 64
        → merge spec (cell adds spec a) (cell adds spec b) ≡ cell adds spec c }
    ensures picked { (adds : Addends) (spec : CellSpec) (p q : Row → Bool) (rows : List Row) → ((r : Row) → p r ≡ true → q r ≡ false) → Apart rows → length rows < 2 ^ 64
        → merge spec (cell adds spec (filter p rows)) (cell adds spec (filter q rows)) ≡ cell adds spec (filter (λ r. p r || q r) rows) }
    ensures empty { (adds : Addends) (spec : CellSpec) → cell adds spec [] ≡ empty_cell spec }
    ensures parts { (adds : Addends) (spec : CellSpec) (f : Row → ℕ) (numbers : List ℕ) (rows : List Row) → Distinct numbers → Apart rows → length rows < 2 ^ 64
        → merge_all spec (map (λ n. cell adds spec (filter (λ r. f r == n) rows)) numbers) ≡ cell adds spec (filter (λ r. one_of numbers (f r)) rows) }
{}

/// No two rows of a table have one number, so the laws of merging hold for them and for any that pass a test.
pub fn rows_of_tables_are_apart()
    ensures { (table : TableParts) → Apart (rows_of table) }
{}
