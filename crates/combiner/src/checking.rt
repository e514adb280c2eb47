//! Which combined words can stand where they do.
ghost use Rattle.std.specs.Prelude.{◌≡◌, ℕ, ◌<◌, ◌^◌, All, IsTrue, length, slice_index_or};
ghost use Rattle.std.specs.List.{flat_map};
ghost use Rattle.spl_values.specs.Kinds.{is_kind};
ghost use Rattle.cell_merge.specs.Cells.{block_width, item_width};
ghost use Rattle.cell_merge.specs.TableRows.{HasColumns};
ghost use Rattle.combiner.specs.declared.checking.WordKind.TheVariants as kinds;
ghost use Rattle.combiner.specs.GoodWords.{is_code as code_test, is_good as good_test, kind_at as kind_of_place, item_kinds, block_kinds, good_words};

use crate::finals::FinalFault;
use cell_merge::{CellItem, block_words, item_words};
use spl_values::{Column, ColumnType, decode};

/// What a word of a cell is.
#[derive(Clone, Copy, Debug, PartialEq, Eq)]
pub(crate) enum WordKind {
    /// A number of rows, or a row's place, from 1.
    Rows,
    /// A code of the column of that number.
    Code(u32),
    /// A sum.
    Sum,
}

/// What the word at a place of an item is, counted from 0.
fn kind_in_item(item: CellItem, place: usize) -> WordKind
    requires { place < item_width item }
    ensures { result ≡ slice_index_or (item_kinds item) place kinds.Sum }
{
    match item {
        CellItem::Count | CellItem::Sum(_) | CellItem::Avg(_) => WordKind::Sum,
        CellItem::Max(column) | CellItem::Min(column) => WordKind::Code(column),
        CellItem::TopK(_, sort, show) => match place % 3 {
            0 => WordKind::Rows,
            1 => WordKind::Code(sort),
            _ => WordKind::Code(show),
        },
    }
}

/// What the word at a place of the items of a block is, counted from 0.
fn kind_in_items(items: &[CellItem], place: usize) -> WordKind
    ensures { result ≡ slice_index_or (flat_map item_kinds items.now) place kinds.Sum }
{
    let mut rest = place;
    for item in items {
        let words = item_words(*item);
        if rest < words {
            return kind_in_item(*item, rest);
        }
        rest -= words;
    }
    WordKind::Sum
}

/// What the word at a place of a block is, counted from 0.
fn kind_in_block(items: &[CellItem], place: usize) -> WordKind
    ensures { result ≡ slice_index_or (block_kinds items.now) place kinds.Sum }
{
    if place == 0 {
        WordKind::Rows
    } else {
        kind_in_items(items, place - 1)
    }
}

/// What the word at a place of some cells is, counted from 0; their blocks have so many words.
fn kind_at(items: &[CellItem], block: usize, place: usize) -> WordKind
    requires { block ≡ block_width items.now }
    ensures { result ≡ kind_of_place items.now place }
{
    kind_in_block(items, place % block)
}

/// Whether a value of a column of that type has the code.
fn is_code(kind: &ColumnType, code: u64) -> bool
    requires { IsTrue (is_kind kind.now) }
    ensures { result ≡ code_test kind.now code }
{
    decode(kind, u128::from(code)).is_some()
}

/// Whether a word can be one of that kind, over so many rows of those columns.
fn is_good(columns: &[Column], rows: u32, kind: WordKind, word: u64) -> bool
    requires { (column : ℕ) → kind ≡ kinds.Code column → column < length columns.now }
    ensures { result ≡ good_test columns.now rows kind word }
{
    match kind {
        WordKind::Rows => word <= u64::from(rows),
        WordKind::Code(column) => {
            let column = &columns[column as usize];
            is_code(&column.kind, word)
        }
        WordKind::Sum => true,
    }
}

/// Refuses the first word that can't stand where it does, in cells of these items over so many rows of those columns.
pub(crate) fn check_words(
    columns: &[Column],
    items: &[CellItem],
    rows: u32,
    words: &[u64],
) -> Result<(), FinalFault>
    requires columns { All (HasColumns columns.now) items.now }
    requires block { block_width items.now < 2 ^ 64 }
    requires words { length words.now < 2 ^ 32 }
    ensures { result ≡ good_words columns.now items.now rows 0 words.now }
{
    let block = block_words(items);
    for (place, word) in words.iter().enumerate() {
        let kind = kind_at(items, block, place);
        if !is_good(columns, rows, kind, *word) {
            return Err(FinalFault::BadWord(place as u32, *word));
        }
    }
    Ok(())
}
