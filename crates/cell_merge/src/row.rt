//! The cell of one row of a table.

ghost use Rattle.std.specs.Prelude.{◌≡◌, ℕ, ◌+◌, ◌*◌, ◌<◌, ◌≤◌, All, [], ◌∷◌, length, replicate};
ghost use Rattle.spl_values.specs.Tables.{column_bits};
ghost use Rattle.cell_merge.specs.Rows.{code};
ghost use Rattle.cell_merge.specs.Cells.{addend, block, block_width, cell, cell_width, item_width, item_words};
ghost use Rattle.cell_merge.specs.TableRows.{HasLabels, IsNumbers, SpecFits, adds_in, kind_in, row_in};
ghost use Rattle.cell_merge.specs.OneRow.{ItemFits};

use crate::top::write_entry;
use crate::widths::{block_words, item_words};
use crate::{CellItem, CellSpec, Entry};
use spl_values::{Table, Value, encode, laws};

/// The code of a row in a column, both counted from 0. Takes no memory.
pub fn code_at(table: &Table, row: u32, column: u32) -> u128
    requires row { row < table.now.shape.rows }
    requires column { column < length table.now.shape.schema.columns }
    ensures { result ≡ code column (row_in table.now row) }
{
    let _ = table.shape();
    let found = table.column(column);
    encode(&found.kind, table.value(row, column))
}

/// The code of a row in a column, both counted from 0; the column's codes have at most 64 bits. Takes no memory.
pub fn code_word(table: &Table, row: u32, column: u32) -> u64
    requires row { row < table.now.shape.rows }
    requires column { column < length table.now.shape.schema.columns }
    requires bits { column_bits table.now.shape.schema.columns column ≤ 64 }
    ensures { result ≡ code column (row_in table.now row) }
{
    let _ = table.shape();
    let found = table.column(column);
    let value = table.value(row, column);
    laws::codes_are_below();
    encode(&found.kind, value) as u64
}

/// What a row adds to the sum of a column of numbers, both counted from 0. Takes no memory.
pub fn number_in(table: &Table, row: u32, column: u32) -> u64
    requires row { row < table.now.shape.rows }
    requires column { column < length table.now.shape.schema.columns }
    requires numbers { IsNumbers (kind_in table.now.shape.schema.columns column) }
    ensures { result ≡ addend (adds_in table.now.shape.schema.columns) column (row_in table.now row) }
{
    let _ = table.shape();
    code_word(table, row, column)
}

/// The place of a row's label in a column of labels, both counted from 0. Takes no memory. In a
/// column without labels it tells nothing.
pub fn label_in(table: &Table, row: u32, column: u32) -> usize
    requires row { row < table.now.shape.rows }
    requires column { column < length table.now.shape.schema.columns }
    ensures label { (labels : ℕ) → HasLabels labels (kind_in table.now.shape.schema.columns column) → result ≡ code column (row_in table.now row) }
    ensures within { (labels : ℕ) → HasLabels labels (kind_in table.now.shape.schema.columns column) → result < labels }
{
    let _ = table.shape();
    match table.value(row, column) {
        Value::Label(place) => place as usize,
        _ => 0,
    }
}

/// The words of one item of a row, in words that are all 0.
fn row_words(item: CellItem, table: &Table, row: u32, out: &mut [u64])
    requires row { row < table.now.shape.rows }
    requires fits { ItemFits table.now.shape.schema.columns item }
    requires zeros { out.old ≡ replicate (item_width item) 0 }
    ensures { out.new ≡ item_words (adds_in table.now.shape.schema.columns) item (row_in table.now row ∷ []) }
{
    match item {
        CellItem::Count => {}
        CellItem::Sum(column) | CellItem::Avg(column) => out[0] = number_in(table, row, column),
        CellItem::Max(column) | CellItem::Min(column) => out[0] = code_word(table, row, column),
        CellItem::TopK(k, sort, show) => {
            if k > 0 {
                let entry = Entry {
                    place: row as u64 + 1,
                    sort: code_word(table, row, sort),
                    show: code_word(table, row, show),
                };
                write_entry(out, 0, entry);
            }
        }
    }
}

/// The block of a row, in words that are all 0.
fn row_block(items: &[CellItem], table: &Table, row: u32, out: &mut [u64])
    requires row { row < table.now.shape.rows }
    requires fits { All (ItemFits table.now.shape.schema.columns) items.now }
    requires zeros { out.old ≡ replicate (block_width items.now) 0 }
    ensures { out.new ≡ block (adds_in table.now.shape.schema.columns) items.now (row_in table.now row ∷ []) }
{
    out[0] = 1;
    let mut at = 1;
    for item in items {
        let end = at + item_words(*item);
        row_words(*item, table, row, &mut out[at..end]);
        at = end;
    }
}

/// Leaves the cell of one row of a table, counted from 0, in `out`, which has `width(spec)` words. The spec's columns
/// are the table's: those under SUM and AVG have numbers, those under MAX, MIN and TOPK have codes of at most 64 bits,
/// and the group column has `labels` labels. Takes no memory.
pub fn cell_of_row(spec: &CellSpec, table: &Table, row: u32, out: &mut [u64])
    requires row { row < table.now.shape.rows }
    requires fits { SpecFits spec.now table.now.shape.schema.columns }
    requires out { length out.old ≡ cell_width spec.now }
    ensures { out.new ≡ cell (adds_in table.now.shape.schema.columns) spec.now (row_in table.now row ∷ []) }
{
    out.fill(0);
    let items = spec.items.as_slice();
    match spec.group {
        None => row_block(items, table, row, out),
        Some(column) => {
            let place = label_in(table, row, column);
            let words = block_words(items);
            let at = place * words;
            row_block(items, table, row, &mut out[at..at + words]);
        }
    }
}
