//! Writing a table, and its digest.
ghost use Rattle.std.specs.Prelude.{◌≡◌, ◌+◌, ◌++◌, ◌∷◌, [], List, ℕ, IfOk, OnOk, map, slice_index_or, ◌<◌, ◌≤◌, length};
ghost use Rattle.csv.specs.Writing.{default_writer, row_text};
ghost use Rattle.csv_tables.specs.Standing.{HasWritten};
ghost use Rattle.csv_tables.specs.Writing.{fields_of_row, records_text, table_text, digest_of};
ghost use Rattle.spl_values.specs.Shapes.{names_of};

use csv::{Writer, WriterBuilder};
use sha2::{Digest, Sha256};
use spl_values::{Bytes, Column, Table, print_shape, print_value};
use std::alloc::{AllocError, Global};

fn new_writer(alloc: Global) -> Writer<Vec<u8>>
    ensures { HasWritten result [] }
{
    WriterBuilder::new().from_writer(Vec::new(alloc))
}

/// The text that a writer has written.
fn text_of(writer: Writer<Vec<u8>>) -> Result<Vec<u8>, AllocError>
    ensures { IfOk result (λ v. (text : List ℕ) → HasWritten writer text → v.items ≡ text) }
{
    match writer.into_inner() {
        Ok(text) => Ok(text),
        Err(_) => Err(AllocError),
    }
}

fn slices_of(alloc: Global, fields: &[Bytes]) -> Result<Vec<&[u8]>, AllocError>
    ensures { IfOk result (λ slices. map (λ s. s.now) slices.items ≡ fields.now) }
{
    let mut slices = Vec::new(alloc);
    for field in fields {
        slices.push(field.as_slice())?;
    }
    Ok(slices)
}

/// Writes one record.
fn write_record(
    alloc: Global,
    writer: &mut Writer<Vec<u8>>,
    fields: &[Bytes],
) -> Result<(), AllocError>
    ensures { OnOk result ((text : List ℕ) → HasWritten writer.old text → HasWritten writer.new (text ++ row_text default_writer fields.now)) }
{
    let slices = slices_of(alloc, fields)?;
    match writer.write_fields(slices.as_slice()) {
        Ok(()) => Ok(()),
        Err(_) => Err(AllocError),
    }
}

/// The names of columns, as fields.
fn name_fields(alloc: Global, columns: &[Column]) -> Result<Vec<Bytes>, AllocError>
    ensures { IfOk result (λ fields. fields.items ≡ names_of columns.now) }
{
    let mut fields = Vec::new(alloc);
    for column in columns {
        let name = column.name.as_bytes().to_vec(alloc)?;
        fields.push(Bytes::from_vec(name))?;
    }
    Ok(fields)
}

/// The fields of a row.
fn row_fields(alloc: Global, table: &Table, row: u32) -> Result<Vec<Bytes>, AllocError>
    requires { row < table.now.shape.rows }
    ensures { IfOk result (λ fields. fields.items ≡ fields_of_row table.now.shape.schema.columns (slice_index_or table.now.rows row [])) }
{
    let schema = &table.shape().schema;
    let columns = schema.columns.as_slice().len() as u32;
    let mut fields = Vec::new(alloc);
    for number in 0..columns {
        let column = table.column(number);
        let field = print_value(alloc, &column.kind, table.value(row, number))?;
        fields.push(field)?;
    }
    Ok(fields)
}

/// Writes the rows of a table, each as one record.
fn write_rows(alloc: Global, writer: &mut Writer<Vec<u8>>, table: &Table) -> Result<(), AllocError>
    ensures { OnOk result ((text : List ℕ) → HasWritten writer.old text
        → HasWritten writer.new (text ++ records_text (map (fields_of_row table.now.shape.schema.columns) table.now.rows))) }
{
    let rows = table.shape().rows;
    for row in 0..rows {
        let fields = row_fields(alloc, table, row)?;
        write_record(alloc, writer, fields.as_slice())?;
    }
    Ok(())
}

/// The text of a table: a record of the column names and one for each row, as `csv` writes them.
/// Reading it gives the same rows.
pub fn write_table(alloc: Global, table: &Table) -> Result<Bytes, AllocError>
    ensures { IfOk result (λ text. text ≡ table_text table.now) }
{
    let schema = &table.shape().schema;
    let names = name_fields(alloc, schema.columns.as_slice())?;
    let mut writer = new_writer(alloc);
    write_record(alloc, &mut writer, names.as_slice())?;
    write_rows(alloc, &mut writer, table)?;
    let text = text_of(writer)?;
    Ok(Bytes::from_vec(text))
}

/// The SHA-256 of the canonical text of a table's shape followed by the table's own text.
pub fn table_digest(alloc: Global, table: &Table) -> Result<[u8; 32], AllocError>
    ensures { IfOk result (λ digest. digest ≡ digest_of table.now) }
{
    let shape = print_shape(alloc, table.shape())?;
    let text = write_table(alloc, table)?;
    let mut hasher = Sha256::new();
    hasher.update(shape.as_slice());
    hasher.update(text.as_slice());
    Ok(hasher.finalize())
}
