//! The cells of one level of aligned ranges, made from those of the level below.
ghost use Rattle.std.specs.Prelude.{◌≡◌, ℕ, ◌*◌, ◌/◌, ◌<◌, ◌^◌, List, length, map};
ghost use Rattle.cell_merge.specs.Cells.{Addends, cell_width};
ghost use Rattle.cell_merge.specs.Rows.{Row, Apart};
ghost use Rattle.cell_runs.specs.CellsBy.{ArePairs, cells_by};

use cell_merge::{CellSpec, CellTable};
use cell_runs::merge_runs;
use spl_words::Numbers;

/// From the cells of one level, by rising key, to those of the next, in place: each key is halved, and the cells of
/// two keys with one half are merged. Takes no memory.
pub fn lift(spec: &CellSpec, table: &mut CellTable)
    requires width { table.old.width ≡ cell_width spec.now }
    requires whole { length table.old.cells ≡ length table.old.keys * table.old.width }
    ensures lifted { (adds : Addends) (number : Row → ℕ) (rows : List Row) → Apart rows → length rows < 2 ^ 64
        → ArePairs (cell_width spec.now) (cells_by adds spec.now number rows) table.old.keys table.old.cells
        → ArePairs (cell_width spec.now) (cells_by adds spec.now (λ r. number r / 2) rows) table.new.keys table.new.cells }
    ensures width { table.new.width ≡ table.old.width }
    ensures whole { length table.new.cells ≡ length table.new.keys * table.new.width }
{
    table.keys = Numbers::from_vec(halved(table.keys.take()));
    merge_runs(spec, table);
}

/// Each number halved, rounded down.
fn halved(mut numbers: Vec<u128>) -> Vec<u128>
    ensures { result.items ≡ map (λ n. n / 2) numbers.items }
{
    for place in 0..numbers.len() {
        numbers[place] /= 2;
    }
    numbers
}
