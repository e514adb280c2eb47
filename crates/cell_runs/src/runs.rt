//! The merge of neighbours that have one number, in place.
ghost use Rattle.std.specs.Prelude.{◌≡◌, ℕ, ◌+◌, ◌*◌, ◌<◌, ◌≤◌, List, ◌∷◌, ◌++◌, length, take, drop};
ghost use Rattle.cell_merge.specs.Cells.{cell_width, merge};
ghost use Rattle.cell_runs.specs.CellsBy.{ArePairs};
ghost use Rattle.cell_runs.specs.Runs.{IsMoving, put_behind, runs};

use cell_merge::{CellSpec, CellTable, merge_into};
use spl_words::{Numbers, Words};

/// Merges each run of neighbours that have one number to one cell, from the front, and keeps its number. Takes no memory.
pub fn merge_runs(spec: &CellSpec, table: &mut CellTable)
    requires width { table.old.width ≡ cell_width spec.now }
    requires whole { length table.old.cells ≡ length table.old.keys * table.old.width }
    ensures merged { (pairs : List (ℕ × List ℕ)) → ArePairs (cell_width spec.now) pairs table.old.keys table.old.cells → ArePairs (cell_width spec.now) (runs spec.now pairs) table.new.keys table.new.cells }
    ensures width { table.new.width ≡ table.old.width }
    ensures whole { length table.new.cells ≡ length table.new.keys * table.new.width }
{
    let words = table.width as usize;
    let mut keys = table.keys.take();
    let mut cells = table.cells.take();
    let kept = move_runs(spec, words, &mut keys, &mut cells);
    keys.truncate(kept);
    cells.truncate(kept * words);
    table.keys = Numbers::from_vec(keys);
    table.cells = Words::from_vec(cells);
}

/// Leaves the merged runs at the front, each cell in `words` words, and tells how many they are.
fn move_runs(spec: &CellSpec, words: usize, keys: &mut [u128], cells: &mut [u64]) -> usize
    requires words { words ≡ cell_width spec.now }
    requires whole { length cells.old ≡ length keys.old * words }
    ensures merged { (pairs : List (ℕ × List ℕ)) → ArePairs words pairs keys.old cells.old → ArePairs words (runs spec.now pairs) (take result keys.new) (take (result * words) cells.new) }
    ensures bound { result ≤ length keys.new }
{
    let mut kept = 0;
    for place in 0..keys.len() {
        kept = add_cell(spec, words, keys, cells, kept, place);
    }
    kept
}

/// Takes the cell of a place to the runs that are kept at the front, and tells how many they are then.
fn add_cell(
    spec: &CellSpec,
    words: usize,
    keys: &mut [u128],
    cells: &mut [u64],
    kept: usize,
    place: usize,
) -> usize
    requires words { words ≡ cell_width spec.now }
    requires whole { length cells.old ≡ length keys.old * words }
    requires kept { kept ≤ place }
    requires place { place < length keys.old }
    ensures moved { (done left : List (ℕ × List ℕ)) (p : ℕ × List ℕ) → IsMoving words done (p ∷ left) kept place keys.old cells.old → IsMoving words (put_behind spec.now done p) left result (place + 1) keys.new cells.new }
    ensures bound { result ≤ place + 1 }
{
    if kept > 0 {
        if keys[kept - 1] == keys[place] {
            merge_cells(spec, words, cells, kept - 1, place);
            return kept;
        }
    }
    keys[kept] = keys[place];
    cells.copy_within(place * words..(place + 1) * words, kept * words);
    kept + 1
}

/// Merges the cell of a place into that of an earlier one.
fn merge_cells(spec: &CellSpec, words: usize, cells: &mut [u64], into: usize, from: usize)
    requires words { words ≡ cell_width spec.now }
    requires earlier { into < from }
    requires within { (from + 1) * words ≤ length cells.old }
    ensures { cells.new ≡ take (into * words) cells.old ++ (merge spec.now (take words (drop (into * words) cells.old)) (take words (drop (from * words) cells.old)) ++ drop ((into + 1) * words) cells.old) }
{
    let start = into * words;
    let (front, back) = cells.split_at_mut(from * words);
    merge_into(spec, &mut front[start..start + words], &back[..words]);
}
