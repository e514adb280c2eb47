//! Columns by their numbers.
ghost use Rattle.std.specs.Prelude.{◌≡◌, ◌<◌, length, Some, slice_get};

use spl_values::Column;

/// The column of that number, counted from 0.
pub(crate) fn column_at(columns: &[Column], number: u32) -> &Column
    requires { number < length columns.now }
    ensures { slice_get columns.now number ≡ Some result.now }
{
    &columns[number as usize]
}
