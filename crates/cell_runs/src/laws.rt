//! Laws of cells by a number. The function does nothing: its clauses are the laws.
ghost use Rattle.std.specs.Prelude.{◌≡◌, ℕ, ◌<◌, ◌≤◌, ◌^◌, List, [], ◌∷◌, length, map};
ghost use Rattle.std.specs.List.Sorted.{IsNonDecreasingBy};
ghost use Rattle.cell_merge.specs.declared.spec.CellSpec.{CellSpec};
ghost use Rattle.cell_merge.specs.Cells.{Addends, cell};
ghost use Rattle.cell_merge.specs.Rows.{Row, Apart};
ghost use Rattle.cell_runs.specs.CellsBy.{cells_by, rows_at};
ghost use Rattle.cell_runs.specs.Runs.{runs};

/// The merged runs of cells are the cells by a number: of the cells by a finer number, and of the cells of single
/// rows whose numbers don't fall. And rows of which the same have each number, in one order, have the same cells by it.
pub fn runs_are_cells()
    ensures coarser { (adds : Addends) (spec : CellSpec) (number : Row → ℕ) (g : ℕ → ℕ) (rows : List Row) → ((m n : ℕ) → m ≤ n → g m ≤ g n) → Apart rows → length rows < 2 ^ 64
        → runs spec (map (λ p. (g p.0, p.1)) (cells_by adds spec number rows)) ≡ cells_by adds spec (λ r. g (number r)) rows }
    ensures in_order { (adds : Addends) (spec : CellSpec) (number : Row → ℕ) (rows : List Row) → IsNonDecreasingBy number rows → ((n : ℕ) → Apart (rows_at number rows n)) → length rows < 2 ^ 64
        → runs spec (map (λ r. (number r, cell adds spec (r ∷ []))) rows) ≡ cells_by adds spec number rows }
    ensures same { (adds : Addends) (spec : CellSpec) (number : Row → ℕ) (a b : List Row) → ((n : ℕ) → rows_at number a n ≡ rows_at number b n) → cells_by adds spec number a ≡ cells_by adds spec number b }
{}
