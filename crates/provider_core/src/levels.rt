//! The words of an answer that has some for each key: the keys of each depth, over the cells by as many bits of the
//! joined key or of the position.
ghost use Rattle.std.specs.Prelude.{◌≡◌, ◌+◌, ◌-◌, ◌*◌, ◌^◌, ◌<◌, ◌≤◌, ◌==◌, ℕ, All, List, Some, length, slice_get, if◌then◌else◌};
ghost use Rattle.spl_words.specs.Folds.{AreEntries, fold_words};
ghost use Rattle.cell_merge.specs.Cells.{cell_width};
ghost use Rattle.key_frames.specs.Keys.{depth as depth_of};
ghost use Rattle.key_frames.specs.Trees.{key_share};
ghost use Rattle.key_frames.specs.declared.keys.Key.{Key as TheKey};
ghost use Rattle.session_model.specs.Answers.{entries_of};
ghost use Rattle.provider_core.specs.Cells.{AreCells, by_number, first_levels as levels_of_first, words_at};

use crate::layout::depth;
use crate::words::{Folding, fold_key};
use aligned_ranges::lift;
use cell_merge::CellTable;
use key_frames::Key;
use seed_expansion::Expander;
use share_eval::{Gate, Lane};
use std::thread::Threads;

/// The depth of the least deep of some keys, or `bits` where none is less deep.
fn least_depth(keys: &[Key], bits: usize) -> usize
    ensures least { All (λ key. result ≤ depth_of key) keys.now }
    ensures most { result ≤ bits }
{
    let mut least = bits;
    for key in keys {
        least = least.min(depth(key));
    }
    least
}

/// The number of levels of the first of some keys, or 0 where there is none.
fn first_levels(keys: &[Key]) -> usize
    ensures { result ≡ levels_of_first keys.now }
{
    match keys.first() {
        Some(key) => depth(key),
        None => 0,
    }
}

/// Sets the words of each key of that depth to the sums of its shares times the cells.
pub fn fold_level<T: Threads + Sync, E: Expander + Sync, G: Gate + Sync>(
    rt: &T,
    gate: &G,
    folding: &Folding<E>,
    level_depth: usize,
    cells: &CellTable,
    lanes: &mut [Lane],
    words: &mut [u64],
)
    requires workers { (1 ≤ length lanes.old) × (length lanes.old ≤ 64) }
    requires width { (1 ≤ cells.now.width) × (cells.now.width ≤ 128) }
    requires few { length cells.now.keys ≤ 2 ^ 32 }
    requires levels { level_depth ≤ 128 }
    requires bits { All (λ x. x < 2 ^ level_depth) cells.now.keys }
    requires whole { length cells.now.cells ≡ length cells.now.keys * cells.now.width }
    requires keys { length folding.now.asked.now.frame.keys ≤ 512 }
    requires tree { folding.now.first_tree ≤ 512 }
    requires room { length words.old ≡ length folding.now.asked.now.frame.keys * cells.now.width }
    ensures { (entries : List (ℕ × List ℕ)) → AreEntries cells.now.width entries cells.now.keys cells.now.cells
        → (i : ℕ) (key : TheKey) → slice_get folding.now.asked.now.frame.keys i ≡ Some key
        → words_at cells.now.width i words.new ≡ (if depth_of key == level_depth then fold_words (key_share (E.meaning folding.now.expander.now) folding.now.provider (folding.now.first_tree + i) key) entries cells.now.width else words_at cells.now.width i words.old) }
{
    let width = cells.width as usize;
    let keys = folding.asked.frame.keys.as_slice();
    for (tree, key) in keys.iter().enumerate() {
        if depth(key) == level_depth {
            let place = tree * width;
            let out = &mut words[place..place + width];
            let number = folding.first_tree + tree as u32;
            fold_key(rt, gate, folding, number, key, cells, lanes, out);
        }
    }
}

/// Sets the words of each key, in its place, to the sums of its shares times the cells of its level, which is the higher
/// the less deep the key is than the first one. The cells are those of the round by joined key or by position, and are
/// lifted in place from level to level. Takes no memory.
pub fn fold_levels<T: Threads + Sync, E: Expander + Sync, G: Gate + Sync>(
    rt: &T,
    gate: &G,
    folding: &Folding<E>,
    cells: &mut CellTable,
    lanes: &mut [Lane],
    words: &mut [u64],
)
    requires some { 1 ≤ cell_width folding.now.asked.now.checked.spec }
    requires small { cell_width folding.now.asked.now.checked.spec ≤ 128 }
    requires cells { AreCells folding.now.asked.now.checked folding.now.table.now (by_number folding.now.asked.now.frame.round 0) (levels_of_first folding.now.asked.now.frame.keys) cells.old }
    requires keys { length folding.now.asked.now.frame.keys ≤ 512 }
    requires deep { levels_of_first folding.now.asked.now.frame.keys ≤ 128 }
    requires levels { All (λ key. depth_of key ≤ levels_of_first folding.now.asked.now.frame.keys) folding.now.asked.now.frame.keys }
    requires tree { folding.now.first_tree ≤ 512 }
    requires workers { (1 ≤ length lanes.old) × (length lanes.old ≤ 64) }
    requires room { length words.old ≡ length folding.now.asked.now.frame.keys * cell_width folding.now.asked.now.checked.spec }
    ensures { (i : ℕ) (key : TheKey) → slice_get folding.now.asked.now.frame.keys i ≡ Some key
        → words_at (cell_width folding.now.asked.now.checked.spec) i words.new ≡ fold_words (key_share (E.meaning folding.now.expander.now) folding.now.provider (folding.now.first_tree + i) key)
        (entries_of folding.now.asked.now.checked folding.now.table.now (by_number folding.now.asked.now.frame.round (levels_of_first folding.now.asked.now.frame.keys - depth_of key))) (cell_width folding.now.asked.now.checked.spec) }
{
    // What the table keeps.
    let _ = folding.table.shape();
    let keys = folding.asked.frame.keys.as_slice();
    let bits = first_levels(keys);
    let least = least_depth(keys, bits);
    for level in 0..bits - least {
        fold_level(rt, gate, folding, bits - level, cells, lanes, words);
        lift(&folding.asked.checked.spec, cells);
    }
    fold_level(rt, gate, folding, least, cells, lanes, words);
}
