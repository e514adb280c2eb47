//! The merge of two cells, in place.

ghost use Rattle.std.specs.Prelude.{◌≡◌, ℕ, ◌+◌, ◌*◌, ◌%◌, ◌^◌, ◌<◌, ◌≤◌, min, max, length, slice_index, replicate};
ghost use Rattle.cell_merge.specs.Cells.{item_width, block_width, cell_width, better, merge_item, merge_block, merge};

use crate::top::merge_top;
use crate::widths::{block_count, block_words, item_words};
use crate::{CellItem, CellSpec};

/// Leaves the cell of no rows in `out`, which has as many words as the cell.
pub fn empty_cell(out: &mut [u64])
    ensures { out.new ≡ replicate (length out.old) 0 }
{
    out.fill(0);
}

/// The word of a merged cell, where the cells have `mine` and `theirs` rows and the words `a` and `b`:
/// that of the one cell that has rows, or what was picked of both.
fn better(mine: u64, theirs: u64, a: u64, b: u64, picked: u64) -> u64
    ensures { (pick : ℕ → ℕ → ℕ) → picked ≡ pick a b → result ≡ better pick mine theirs a b }
{
    match (mine, theirs) {
        (0, 0) => 0,
        (0, _) => b,
        (_, 0) => a,
        _ => picked,
    }
}

fn greatest_word(mine: u64, theirs: u64, a: u64, b: u64) -> u64
    ensures { result ≡ better max mine theirs a b }
{
    better(mine, theirs, a, b, a.max(b))
}

fn least_word(mine: u64, theirs: u64, a: u64, b: u64) -> u64
    ensures { result ≡ better min mine theirs a b }
{
    better(mine, theirs, a, b, a.min(b))
}

/// Merges the words of one item of cells with the counts `mine` and `theirs`.
fn merge_words(item: CellItem, mine: u64, theirs: u64, into: &mut [u64], from: &[u64])
    requires into { length into.old ≡ item_width item }
    requires from { length from.now ≡ item_width item }
    ensures { into.new ≡ merge_item item mine theirs into.old from.now }
{
    match item {
        CellItem::Count => {}
        CellItem::Sum(_) | CellItem::Avg(_) => into[0] = into[0].wrapping_add(from[0]),
        CellItem::Max(_) => into[0] = greatest_word(mine, theirs, into[0], from[0]),
        CellItem::Min(_) => into[0] = least_word(mine, theirs, into[0], from[0]),
        CellItem::TopK(k, _, _) => merge_top(k as usize, into, from),
    }
}

/// Merges one block.
fn merge_one(items: &[CellItem], into: &mut [u64], from: &[u64])
    requires into { length into.old ≡ block_width items.now }
    requires from { length from.now ≡ block_width items.now }
    ensures { into.new ≡ merge_block items.now into.old from.now }
{
    let mine = into[0];
    let theirs = from[0];
    into[0] = mine.wrapping_add(theirs);
    let mut at = 1;
    for item in items {
        let end = at + item_words(*item);
        merge_words(*item, mine, theirs, &mut into[at..end], &from[at..end]);
        at = end;
    }
}

/// Merges the cell `from` into the cell `into`, whatever words they hold: counts and sums add modulo 2^64, a greatest
/// or least word is taken from the cells that have rows, and of the best rows of both the first k stay.
/// Both have `width(spec)` words. Takes no memory.
pub fn merge_into(spec: &CellSpec, into: &mut [u64], from: &[u64])
    requires into { length into.old ≡ cell_width spec.now }
    requires from { length from.now ≡ cell_width spec.now }
    ensures { into.new ≡ merge spec.now into.old from.now }
{
    let count = block_count(spec);
    if count == 0 {
        return;
    }
    let items = spec.items.as_slice();
    let words = block_words(items);
    for i in 0..count {
        let at = i * words;
        merge_one(items, &mut into[at..at + words], &from[at..at + words]);
    }
}
