//! Reading a whole table.
ghost use Rattle.std.specs.Prelude.{◌≡◌, ◌≢◌, IfOk, IfErr, Ok, Err};
ghost use Rattle.csv_tables.specs.Reading.{table_of_text};
ghost use Rattle.csv_tables.specs.declared.fault.TableFault.TheVariants.{OutOfMemory as no_memory};

use crate::fault::TableFault;
use crate::reading::read_cells;
use spl_values::{Rows, Shape, Table};
use std::alloc::Global;

/// The table of a shape that comma-separated values are, or the first fault.
///
/// How bytes are parted into records is the definition of `csv`, for records of any length, and
/// nothing is trimmed; a byte order mark at the front is taken off. The first record has to be the
/// column names, in order. Then the records are judged in order, each by its length and then cell
/// by cell, and after all of them their number.
pub fn read_table(alloc: Global, bytes: &[u8], shape: &Shape) -> Result<Table, TableFault>
    ensures shape { IfOk result (λ table. table.shape ≡ shape.now) }
    ensures ok { IfOk result (λ table. table_of_text shape.now bytes.now ≡ Ok table.rows) }
    ensures err { IfErr result (λ fault. fault ≢ no_memory → table_of_text shape.now bytes.now ≡ Err fault) }
{
    let schema = &shape.schema;
    let columns = schema.columns.as_slice();
    let (cells, found) = read_cells(alloc, bytes, columns, shape.rows)?;
    if found != shape.rows as u64 {
        return Err(TableFault::RowCount(found, shape.rows as u64));
    }
    let rows = Rows::from_cells(columns.len(), shape.rows as usize, cells);
    Ok(Table::new(shape.clone()?, rows))
}
