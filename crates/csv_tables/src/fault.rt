//! Why a text has no table of a shape.
use spl_values::ValueFault;
use std::alloc::AllocError;

/// Why a text has no table of a shape. Rows and columns are counted from 0, the header not among
/// the rows.
#[derive(Clone, Copy, Debug, PartialEq, Eq)]
pub enum TableFault {
    /// The first record isn't the column names, in order, or there is no record.
    BadHeader,
    /// That row has not one field for each column.
    RowLength(u32),
    /// The field in that row and column is no value of the column.
    BadCell(u32, u32, ValueFault),
    /// There are so many rows, and the shape states another number.
    RowCount(u64, u64),
    /// There is no memory.
    OutOfMemory,
}

impl From<AllocError> for TableFault {
    ghost use Rattle.std.specs.Prelude.{◌≡◌};
    ghost use Rattle.csv_tables.specs.declared.fault.TableFault.TheVariants as variant;

    ghost from_gives = { λ _ fault. fault ≡ variant.OutOfMemory };

    fn from(_error: AllocError) -> TableFault {
        TableFault::OutOfMemory
    }
}
