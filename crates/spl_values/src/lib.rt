//! Columns of a table: their types, the values that they take, the codes of those values, and the
//! text that describes a table's shape.
#![tactic(auto)]

mod cells;
mod columns;
mod cuts;
mod kept_texts;
mod kinds;
pub mod laws;
mod lists;
mod names;
mod shape_printer;
mod shape_reader;
mod tables;
mod values;

pub use cells::{print_value, value_of};
pub use columns::{Column, Columns, Schema, Shape};
pub use kinds::{ColumnType, bits, is_kind};
pub use lists::{Bytes, Labels, Name};
pub use names::{is_label, is_name, is_name_byte, is_name_start, is_reserved};
pub use shape_printer::print_shape;
pub use shape_reader::{ShapeFault, read_shape};
pub use tables::{Rows, Table, join_key, with_code};
pub use values::{Value, ValueFault, decode, encode, fits};
