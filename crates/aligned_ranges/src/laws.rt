//! What covers are for.
ghost use Rattle.std.specs.Prelude.{◌≡◌, ℕ, ◌/◌, ◌<◌, ◌≤◌, ◌^◌, ◌&&◌, nat_le, Bool, List, length, map, sum_by, if◌then◌else◌};
ghost use Rattle.std.specs.List.{AllByRecursion, filter, list_any};
ghost use Rattle.cell_merge.specs.declared.spec.CellSpec.{CellSpec};
ghost use Rattle.cell_merge.specs.Cells.{Addends, cell, merge_all};
ghost use Rattle.cell_merge.specs.Rows.{Row, Apart};
ghost use Rattle.aligned_ranges.specs.Covers.{cover, cover_level, holds};

/// A number of the interval lies in exactly one range of its cover, and another number in none. Of
/// each level there are at most two ranges.
pub fn covers_are_partitions()
    ensures value { (lo hi w x : ℕ) → 1 ≤ w → sum_by (λ r. if holds x r then 1 else 0) (cover lo hi w) ≡ (if nat_le lo x && nat_le x hi then 1 else 0) }
    ensures few { (lo hi w level : ℕ) → lo / 2 ^ w ≡ hi / 2 ^ w → length (cover_level lo hi w level) ≤ 2 }
{}

/// The cells of the rows that pass tests of which no row passes two merge to the cell of the rows that pass one of them.
/// So those of the ranges of a cover merge to the cell of the rows whose numbers lie in its interval.
pub fn cells_of_ranges_merge()
    ensures tests { (adds : Addends) (spec : CellSpec) (rows : List Row) (tests : List (Row → Bool)) → Apart rows → length rows < 2 ^ 64
        → AllByRecursion (λ row. sum_by (λ passes. if passes row then 1 else 0) tests ≤ 1) rows
        → merge_all spec (map (λ passes. cell adds spec (filter passes rows)) tests) ≡ cell adds spec (filter (λ row. list_any (λ passes. passes row) tests) rows) }
    ensures cover { (adds : Addends) (spec : CellSpec) (number : Row → ℕ) (rows : List Row) (lo hi w : ℕ) → 1 ≤ w → Apart rows → length rows < 2 ^ 64
        → merge_all spec (map (λ r. cell adds spec (filter (λ row. holds (number row) r) rows)) (cover lo hi w)) ≡ cell adds spec (filter (λ row. nat_le lo (number row) && nat_le (number row) hi) rows) }
{}
