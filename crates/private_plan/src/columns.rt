//! The bits of columns.
ghost use Rattle.std.specs.Prelude.{◌≡◌, ◌<◌, ◌≤◌, length, All};
ghost use Rattle.spl_values.specs.Tables.{column_bits as bits_of_column};
ghost use Rattle.private_plan.specs.Plans.{last_bits as bits_of_last};

use spl_values::{Schema, bits};

/// The bits of the column at a place, which is there.
pub(crate) fn column_bits(schema: &Schema, place: u32) -> u32
    requires { place < length schema.now.columns }
    ensures { result ≡ bits_of_column schema.now.columns place }
{
    match schema.columns.as_slice().get(place as usize) {
        Some(column) => bits(&column.kind),
        None => 0,
    }
}

/// The bits of the last of some columns.
pub(crate) fn last_bits(schema: &Schema, places: &[u32]) -> u32
    requires some { 1 ≤ length places.now }
    requires columns { All (λ place. place < length schema.now.columns) places.now }
    ensures { result ≡ bits_of_last schema.now.columns places.now }
{
    column_bits(schema, places[places.len() - 1])
}
