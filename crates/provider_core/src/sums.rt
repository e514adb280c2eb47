//! The words of a sum: for each word the sum over all keys and rows of the key's share times the row's word.
ghost use Rattle.std.specs.Prelude.{◌≡◌, ◌*◌, ◌^◌, ◌<◌, ◌≤◌, ℕ, All, List, length, slice_index};
ghost use Rattle.spl_words.specs.Words.{plus};
ghost use Rattle.spl_words.specs.Folds.{AreEntries, Gains};
ghost use Rattle.key_frames.specs.Keys.{depth};
ghost use Rattle.key_frames.specs.Trees.{key_shares};

use crate::words::{Folding, fold_key};
use cell_merge::CellTable;
use seed_expansion::Expander;
use share_eval::{Gate, Lane};
use spl_words::plus;
use std::thread::Threads;

/// Adds words place by place.
fn add_words(words: &mut [u64], part: &[u64])
    requires { length words.old ≤ length part.now }
    ensures { (k : ℕ) → k < length words.old → slice_index words.new k ≡ plus (slice_index words.old k) (slice_index part.now k) }
{
    for (k, word) in words.iter_mut().enumerate() {
        *word = plus(*word, part[k]);
    }
}

/// Adds, for each key of a frame, the sums of the shares under it times the rows' cells. The keys' trees are numbered
/// from 0. What `part` holds, which has as many words, means nothing.
pub fn add_keys<T: Threads + Sync, E: Expander + Sync, G: Gate + Sync>(
    rt: &T,
    gate: &G,
    folding: &Folding<E>,
    rows: &CellTable,
    lanes: &mut [Lane],
    part: &mut [u64],
    words: &mut [u64],
)
    requires workers { (1 ≤ length lanes.old) × (length lanes.old ≤ 64) }
    requires width { (1 ≤ length words.old) × (length words.old ≤ 128) }
    requires part { length part.old ≡ length words.old }
    requires few { length rows.now.keys ≤ 2 ^ 32 }
    requires keys { length folding.now.asked.now.frame.keys ≤ 512 }
    requires levels { All (λ key. depth key ≤ 128) folding.now.asked.now.frame.keys }
    requires bits { All (λ key. All (λ x. x < 2 ^ depth key) rows.now.keys) folding.now.asked.now.frame.keys }
    requires whole { length rows.now.cells ≡ length rows.now.keys * length words.old }
    ensures { (entries : List (ℕ × List ℕ)) → AreEntries (length words.old) entries rows.now.keys rows.now.cells
        → Gains (key_shares (E.meaning folding.now.expander.now) folding.now.provider 0 folding.now.asked.now.frame.keys) entries (length words.old) words.old words.new }
{
    let keys = folding.asked.frame.keys.as_slice();
    for (tree, key) in keys.iter().enumerate() {
        fold_key(rt, gate, folding, tree as u32, key, rows, lanes, part);
        add_words(words, part);
    }
}
