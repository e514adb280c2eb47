//! Printing the text of a shape.
ghost use Rattle.std.specs.Prelude.{◌≡◌, ◌∷◌, ◌++◌, [], map, codes, IfOk, OnOk};
ghost use Rattle.std.specs.List.{join_with_byte};
ghost use Rattle.std.specs.Fmt.{decimal};
ghost use Rattle.spl_values.specs.ShapeTexts.{kind_word, kind_inside, column_line, text_of_lines, shape_text};

use crate::columns::{Column, Shape};
use crate::kinds::ColumnType;
use crate::lists::{Bytes, Name};
use std::alloc::{AllocError, Global};

/// The labels of a type, with a bar between two of them.
fn labels_text(alloc: Global, labels: &[Name]) -> Result<Vec<u8>, AllocError>
    ensures { IfOk result (λ text. text.items ≡ join_with_byte 124 labels.now) }
{
    let mut text = Vec::new(alloc);
    for (place, label) in labels.iter().enumerate() {
        if place > 0 {
            text.push(b'|')?;
        }
        text.extend_from_slice(label.as_bytes())?;
    }
    Ok(text)
}

/// What stands between the parentheses of a type.
fn kind_inside(alloc: Global, kind: &ColumnType) -> Result<Vec<u8>, AllocError>
    ensures { IfOk result (λ text. text.items ≡ kind_inside kind.now) }
{
    match kind {
        ColumnType::Uint(number) | ColumnType::Text(number) => Ok(
            number.to_string(alloc)?.into_bytes(),
        ),
        ColumnType::Enum(labels) => labels_text(alloc, labels.as_slice()),
    }
}

/// The word that begins a type.
fn kind_word(kind: &ColumnType) -> &'static [u8]
    ensures { result.now ≡ kind_word kind.now }
{
    match kind {
        ColumnType::Uint(_) => b"UINT(",
        ColumnType::Text(_) => b"TEXT(",
        ColumnType::Enum(_) => b"ENUM(",
    }
}

/// The line of a column, with its end.
#[tactic(auto, unfolding(crate::specs::ShapeTexts::column_line, crate::specs::ShapeTexts::kind_text))]
fn push_column(alloc: Global, text: &mut Vec<u8>, column: &Column) -> Result<(), AllocError>
    ensures { OnOk result (text.new.items ≡ text.old.items ++ (column_line column.now ++ 10 ∷ [])) }
{
    let inside = kind_inside(alloc, &column.kind)?;
    text.extend_from_slice(column.name.as_bytes())?;
    text.push(b' ')?;
    text.extend_from_slice(kind_word(&column.kind))?;
    text.extend_from_slice(inside.as_slice())?;
    text.extend_from_slice(b")\n")?;
    Ok(())
}

/// The lines of columns, each with its end.
fn push_columns(alloc: Global, text: &mut Vec<u8>, columns: &[Column]) -> Result<(), AllocError>
    ensures { OnOk result (text.new.items ≡ text.old.items ++ text_of_lines (map column_line columns.now)) }
{
    for column in columns {
        push_column(alloc, text, column)?;
    }
    Ok(())
}

/// The first two lines, each with its end.
#[tactic(auto, unfolding(crate::specs::ShapeTexts::text_of_lines))]
fn first_lines(alloc: Global, table: &Name, rows: u32) -> Result<Vec<u8>, AllocError>
    ensures { IfOk result (λ text. text.items ≡ text_of_lines ((codes "table " ++ table.now) ∷ (codes "rows " ++ decimal rows) ∷ [])) }
{
    let number = rows.to_string(alloc)?;
    let mut text = b"table ".to_vec(alloc)?;
    text.extend_from_slice(table.as_bytes())?;
    text.extend_from_slice(b"\nrows ")?;
    text.extend_from_slice(number.as_bytes())?;
    text.push(b'\n')?;
    Ok(text)
}

/// The one canonical text of a shape. Reading it gives the shape.
pub fn print_shape(alloc: Global, shape: &Shape) -> Result<Bytes, AllocError>
    ensures { IfOk result (λ text. text ≡ shape_text shape.now) }
{
    let schema = &shape.schema;
    let mut text = first_lines(alloc, &schema.table, shape.rows)?;
    push_columns(alloc, &mut text, schema.columns.as_slice())?;
    Ok(Bytes::from_vec(text))
}
