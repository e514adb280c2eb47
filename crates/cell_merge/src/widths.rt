//! How wide a cell is.

ghost use Rattle.std.specs.Prelude.{◌≡◌, ℕ, ◌+◌, ◌-◌, ◌*◌, ◌^◌, ◌<◌, ◌≤◌, min, length};
ghost use Rattle.cell_merge.specs.Cells.{item_width, items_width, block_width, blocks, cell_width};

use crate::{CellItem, CellSpec};

/// How many words an item has in a block.
pub fn item_words(item: CellItem) -> usize
    ensures { result ≡ item_width item }
{
    match item {
        CellItem::Count => 0,
        CellItem::Sum(_) | CellItem::Avg(_) | CellItem::Max(_) | CellItem::Min(_) => 1,
        CellItem::TopK(k, _, _) => 3 * k as usize,
    }
}

/// How many words the block of one label has: the count, and the words of the items in their order.
pub fn block_words(items: &[CellItem]) -> usize
    requires { block_width items.now < 2 ^ 64 }
    ensures { result ≡ block_width items.now }
{
    let mut words = 1;
    for item in items {
        words += item_words(*item);
    }
    words
}

/// How many blocks a cell has: one for each label, or one where no column groups the rows.
pub fn block_count(spec: &CellSpec) -> usize
    ensures { result ≡ blocks spec.now.group spec.now.labels }
{
    match spec.group {
        None => 1,
        Some(_) => spec.labels as usize,
    }
}

/// How many words a cell has; a width of 2^64 or more is given as 2^64 - 1.
pub fn width(spec: &CellSpec) -> u64
    ensures { result ≡ min (cell_width spec.now) (2 ^ 64 - 1) }
{
    let mut words: u64 = 1;
    for item in spec.items.as_slice() {
        words = words.saturating_add(item_words(*item) as u64);
    }
    words.saturating_mul(block_count(spec) as u64)
}
