//! The columns that a query names, and what its literals mean there.
ghost use Rattle.std.specs.Prelude.{◌≡◌, ◌<◌, length, IfSome, IsTrue, position};
ghost use Rattle.std.specs.Str.{bytes_eq};
ghost use Rattle.spl_values.specs.Kinds.{is_kind, Fits};
ghost use Rattle.query_reader.specs.Columns.{column_of, kind_of, place_of, literal_value as value_of_literal, column_bits as bits_of_column, literal_code as code_of_literal, labels_of};

use query_parser::Literal;
use spl_values::{Column, ColumnType, Name, Schema, Value, bits, encode, fits, value_of};

/// The place of the column of that name among some columns.
fn position_of(columns: &[Column], name: &Name) -> Option<usize>
    ensures place { result ≡ position (λ c. bytes_eq c.name name.now) columns.now }
    ensures within { IfSome result (λ place. place < length columns.now) }
{
    columns.iter().position(|column| column.name == *name)
}

/// The place of the column of that name, from 0.
pub(crate) fn column(schema: &Schema, name: &Name) -> Option<u32>
    ensures place { result ≡ column_of schema.now name.now }
    ensures within { IfSome result (λ place. place < length schema.now.columns) }
{
    match position_of(schema.columns.as_slice(), name) {
        Some(place) => Some(place as u32),
        None => None,
    }
}

/// The place of the column of that name, or 0 where there is none.
pub(crate) fn place(schema: &Schema, name: &Name) -> u32
    ensures { result ≡ place_of schema.now name.now }
{
    column(schema, name).unwrap_or(0)
}

/// The value that a literal has in a column of that type, if it has one.
pub(crate) fn literal_value(kind: &ColumnType, literal: &Literal) -> Option<Value>
    requires { IsTrue (is_kind kind.now) }
    ensures value { result ≡ value_of_literal kind.now literal.now }
    ensures fits { IfSome result (Fits kind.now) }
{
    match literal {
        Literal::Number(number) => {
            let value = Value::Number(*number);
            if fits(kind, value) { Some(value) } else { None }
        }
        Literal::Text(text) => match kind {
            ColumnType::Uint(_) => None,
            _ => value_of(kind, text.as_slice()).ok(),
        },
    }
}

/// The code that a literal has in the column of that name, or 0 where it has none.
pub(crate) fn literal_code(schema: &Schema, name: &Name, literal: &Literal) -> u128
    ensures { result ≡ code_of_literal schema.now name.now literal.now }
{
    match column(schema, name) {
        Some(place) => {
            let column = &schema.columns.as_slice()[place as usize];
            match literal_value(&column.kind, literal) {
                Some(value) => encode(&column.kind, value),
                None => 0,
            }
        }
        None => 0,
    }
}

/// The bits of the column of that name, or 0 where there is none.
pub(crate) fn column_bits(schema: &Schema, name: &Name) -> u32
    ensures { result ≡ bits_of_column schema.now name.now }
{
    match column(schema, name) {
        Some(place) => {
            let column = &schema.columns.as_slice()[place as usize];
            bits(&column.kind)
        }
        None => 0,
    }
}

/// How many labels the column of that name has; 1 where it has none.
pub(crate) fn label_count(schema: &Schema, name: &Name) -> u32
    ensures { result ≡ labels_of schema.now name.now }
{
    match column(schema, name) {
        Some(place) => {
            let column = &schema.columns.as_slice()[place as usize];
            match &column.kind {
                ColumnType::Enum(labels) => labels.as_slice().len() as u32,
                _ => 1,
            }
        }
        None => 1,
    }
}
