//! Tables, and the keys of their rows.
ghost use Rattle.std.specs.Prelude.{◌≡◌, ◌+◌, ◌*◌, ◌^◌, ◌<◌, ◌≤◌, length, Some, slice_get, IfSome, EachIndex, slice_index, All, slice_index_or, []};
ghost use Rattle.spl_values.specs.Kinds.{Fits};
ghost use Rattle.spl_values.specs.Shapes.{IsColumn};
ghost use Rattle.spl_values.specs.Tables.{IsTable, rows_of_cells, value_at, key_bits, key_of};

use crate::columns::{Column, Shape};
use crate::kinds::bits;
use crate::values::{Value, encode};
use std::marker::Model;

/// Rows of values, seen as a list of lists: rows of one width, whose values stand one after another.
#[derive(Debug, Drop)]
pub struct Rows {
    width: usize,
    count: usize,
    cells: Vec<Value>,
}

impl Model for Rows {
    ghost use Rattle.std.specs.Prelude.{List, ◌≡◌, ◌*◌, length};
    ghost use Rattle.spl_values.specs.declared.values.Value.{Value as Cell};
    ghost use Rattle.spl_values.specs.Tables.{rows_of_cells};

    ghost Value = { List (List Cell) };

    ghost view = { λ list. rows_of_cells list.width list.count list.cells.items };

    ghost invariant = { λ list. length list.cells.items ≡ list.count * list.width };
}

impl Rows {
    /// So many rows of that width, whose values stand one after another.
    pub fn from_cells(width: usize, count: usize, cells: Vec<Value>) -> Rows
        requires { length cells.items ≡ count * width }
        ensures { result ≡ rows_of_cells width count cells.items }
    {
        Rows {
            width,
            count,
            cells,
        }
    }

    /// The value in that row and place of the row, counted from 0.
    pub fn get(&self, row: usize, place: usize) -> Value
        requires row { row < length self.now }
        requires place { place < length (slice_index_or self.now row []) }
        ensures { value_at self.now row place ≡ Some result }
    {
        self.cells[row * self.width + place]
    }
}

/// A table: a shape and as many rows as it says, each with one value for each column, which fits
/// the column.
#[derive(Debug, Drop)]
pub struct Table {
    shape: Shape,
    rows: Rows,
}

impl Model for Table {
    ghost use Rattle.spl_values.specs.Tables.{TableParts, IsTable};

    ghost Value = { TableParts };

    ghost view = { λ t. record { shape = t.shape; rows = t.rows } };

    ghost invariant = { λ t. IsTable (record { shape = t.shape; rows = t.rows }) };
}

impl Table {
    /// The table of that shape and those rows.
    pub fn new(shape: Shape, rows: Rows) -> Table
        requires { IsTable (record { shape = shape; rows = rows }) }
        ensures { result ≡ record { shape = shape; rows = rows } }
    {
        Table { shape, rows }
    }

    /// The shape. What a table keeps holds of it.
    pub fn shape(&self) -> &Shape
        ensures shape { result.now ≡ self.now.shape }
        ensures valid { IsTable self.now }
    {
        &self.shape
    }

    /// The column of that number, counted from 0.
    pub fn column(&self, number: u32) -> &Column
        requires { number < length self.now.shape.schema.columns }
        ensures column { slice_get self.now.shape.schema.columns number ≡ Some result.now }
        ensures valid { IsColumn result.now }
    {
        let schema = &self.shape.schema;
        let column = &schema.columns.as_slice()[number as usize];
        let _ = &column.kind;
        column
    }

    /// The value in that row and column, counted from 0.
    pub fn value(&self, row: u32, column: u32) -> Value
        requires row { row < self.now.shape.rows }
        requires column { column < length self.now.shape.schema.columns }
        ensures value { value_at self.now.rows row column ≡ Some result }
        ensures fits { IfSome (slice_get self.now.shape.schema.columns column) (λ c. Fits c.kind result) }
    {
        self.rows.get(row as usize, column as usize)
    }
}

/// A number with a code of so many bits behind it. Takes no memory.
pub fn with_code(key: u128, bits: u32, code: u128) -> u128
    requires bits { bits ≤ 128 }
    requires fits { key * 2 ^ bits + code < 2 ^ 128 }
    ensures { result ≡ key * 2 ^ bits + code }
{
    // A code of 128 bits has no other before it.
    key.checked_shl(bits).unwrap_or(0) + code
}

/// The key of a row over columns of these numbers: the codes of its values one after another in
/// binary, the first column highest, each in its column's bits.
pub fn join_key(table: &Table, columns: &[u32], row: u32) -> u128
    requires row { row < table.now.shape.rows }
    requires columns { All (λ i. i < length table.now.shape.schema.columns) columns.now }
    requires bits { key_bits table.now.shape.schema.columns columns.now ≤ 128 }
    ensures key { result ≡ key_of table.now.shape.schema.columns (slice_index_or table.now.rows row []) columns.now }
    ensures below { result < 2 ^ key_bits table.now.shape.schema.columns columns.now }
{
    // Reading the shape tells what the table keeps.
    let _ = table.shape();
    let mut key = 0u128;
    for number in columns {
        let column = table.column(*number);
        let code = encode(&column.kind, table.value(row, *number));
        key = with_code(key, bits(&column.kind), code);
    }
    key
}
