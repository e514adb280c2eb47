//! The sums of shares times cells.
ghost use Rattle.std.specs.Prelude.{◌≡◌, ℕ, ◌*◌, ◌^◌, ◌<◌, ◌≤◌, List, length, slice_index, All};
ghost use Rattle.spl_words.specs.Words.{plus};
ghost use Rattle.spl_words.specs.Folds.{AreEntries, IsFold};
ghost use Rattle.share_eval.specs.Sums.{GainsEach};

use crate::gate::Gate;
use spl_words::{ShareFn, plus, times};
use std::thread::Threads;

/// The room of one worker: a word for each place of a cell, of which there are at most 128.
#[derive(Clone, Copy, Debug)]
pub struct Lane {
    pub sums: [u64; 128],
}

/// Sets each word of `out` to the sum, modulo 2^64, over all keys of the share at the key times the
/// word at that place of the key's cell. Cell i is the i-th run of `width` words of `cells`. There
/// are 1 to 64 workers, cells of 1 to 128 words, and at most 2^32 keys, which have no more bits than
/// the function takes. `scratch` has a lane for each worker; what the lanes hold, before the call or
/// after it, means nothing. Each worker enters the gate once, with its number, before it folds.
pub fn fold_shares<T: Threads + Sync, F: ShareFn + Sync, G: Gate + Sync>(
    rt: &T,
    f: &F,
    keys: &[u128],
    cells: &[u64],
    width: usize,
    workers: usize,
    out: &mut [u64],
    scratch: &mut [Lane],
    gate: &G,
)
    requires workers { (1 ≤ workers) × (workers ≤ 64) }
    requires width { (1 ≤ width) × (width ≤ 128) }
    requires keys { length keys.now ≤ 2 ^ 32 }
    requires bits { All (λ x. x < 2 ^ F.bits f.now) keys.now }
    requires cells { length cells.now ≡ length keys.now * width }
    requires out { length out.old ≡ width }
    requires lanes { length scratch.old ≡ workers }
    ensures { (entries : List (ℕ × List ℕ)) → AreEntries width entries keys.now cells.now → IsFold (F.word f.now) entries width out.new }
{
    // One thread does the work of all, so neither the runtime nor the lanes are used yet.
    for piece in 0..workers {
        gate.enter(piece as u32);
    }
    out.fill(0);
    add_keys(f, keys, cells, width, out);
}

/// Adds the share at each key times the key's cell.
fn add_keys<F: ShareFn>(f: &F, keys: &[u128], cells: &[u64], width: usize, out: &mut [u64])
    requires bits { All (λ x. x < 2 ^ F.bits f.now) keys.now }
    requires cells { length cells.now ≡ length keys.now * width }
    requires out { length out.old ≡ width }
    ensures { GainsEach (F.word f.now) keys.now cells.now width out.old out.new }
{
    for (i, x) in keys.iter().enumerate() {
        let cell = &cells[i * width..(i + 1) * width];
        add_row(f.share(*x), cell, out);
    }
}

/// Adds a multiple of a row of words.
fn add_row(factor: u64, row: &[u64], out: &mut [u64])
    requires { length out.old ≤ length row.now }
    ensures { (k : ℕ) → k < length out.old → slice_index out.new k ≡ plus (slice_index out.old k) (factor * slice_index row.now k) }
{
    for (k, word) in out.iter_mut().enumerate() {
        *word = plus(*word, times(factor, row[k]));
    }
}
