//! Reading a table.
ghost use Rattle.std.specs.Prelude.{◌≡◌, ◌≢◌, ◌+◌, ◌*◌, ◌≤◌, ◌<◌, ℕ, List, [], ◌∷◌, ◌++◌, length, take, IfOk, IfErr, OnOk, Ok, Err, IsTrue};
ghost use Rattle.std.specs.Cmp.Lexicographic.{pointwise};
ghost use Rattle.std.specs.Str.{bytes_eq};
ghost use Rattle.csv.specs.Machine.{next_record};
ghost use Rattle.csv.specs.Reading.{default_config, strip_bom};
ghost use Rattle.csv.specs.Records.{fields_of, field_at};
ghost use Rattle.csv.specs.declared.parser.State.{State};
ghost use Rattle.csv.specs.declared.parser.State.TheVariants as states;
ghost use Rattle.spl_values.specs.CellTexts.{value_of_text};
ghost use Rattle.spl_values.specs.Shapes.{names_of};
ghost use Rattle.spl_values.specs.declared.values.Value.{Value as AnyValue};
ghost use Rattle.csv_tables.specs.Reading.{row_number, cell_of, cells_of, row_of, rows_under_header, records_of, joined};
ghost use Rattle.csv_tables.specs.Standing.{StandsAt, Took};
ghost use Rattle.csv_tables.specs.declared.fault.TableFault.TheVariants.{OutOfMemory as no_memory};

use crate::fault::TableFault;
use csv::{ByteRecord, ErrorKind, Reader, ReaderBuilder};
use spl_values::{Column, Value, value_of};
use std::alloc::{AllocError, Global};

/// A reader of the records of these bytes.
fn reader_of(alloc: Global, bytes: &[u8]) -> Reader<&[u8]>
    ensures { StandsAt result states.StartRecord (strip_bom bytes.now) }
{
    ReaderBuilder::new()
        .has_headers(false)
        .flexible(true)
        .from_reader(alloc, bytes)
}

/// The next record, and whether there is one. Over bytes in memory want of memory is the one cause
/// of an error, since a record of any length is taken, and its fields need be no text.
fn next_record(reader: &mut Reader<&[u8]>, byte_record: &mut ByteRecord) -> Result<bool, AllocError>
    requires { (s : State) × (text : List ℕ) × StandsAt reader.old s text }
    ensures { IfOk result (λ found. (s : State) (text : List ℕ) → StandsAt reader.old s text
        → Took reader.new found (fields_of byte_record.new) (next_record default_config s [] [] text)) }
{
    match reader.read_byte_record(byte_record) {
        Ok(found) => Ok(found),
        Err(error) => match error.into_kind() {
            ErrorKind::OutOfMemory | ErrorKind::Io(_) => Err(AllocError),
            ErrorKind::UnequalLengths { .. }
            | ErrorKind::Utf8 { .. }
            | ErrorKind::Serialize(_)
            | ErrorKind::Deserialize { .. } => unreachable!("the record is taken"),
        },
    }
}

/// Whether a record is the column names, in order.
fn is_header(columns: &[Column], byte_record: &ByteRecord) -> bool
    ensures { result ≡ pointwise bytes_eq (fields_of byte_record.now) (names_of columns.now) }
{
    if byte_record.len() != columns.len() {
        return false;
    }
    for (place, column) in columns.iter().enumerate() {
        let Some(field) = byte_record.get(place) else {
            return false;
        };
        if field != column.name.as_bytes() {
            return false;
        }
    }
    true
}

/// The value of a field, or the fault of its cell.
fn cell_value(column: &Column, field: &[u8], row: u32, place: u32) -> Result<Value, TableFault>
    ensures { result ≡ cell_of row place (value_of_text column.now.kind field.now) }
{
    match value_of(&column.kind, field) {
        Ok(value) => Ok(value),
        Err(fault) => Err(TableFault::BadCell(row, place, fault)),
    }
}

fn push(cells: &mut Vec<Value>, value: Value) -> Result<(), AllocError>
    ensures { OnOk result (cells.new.items ≡ cells.old.items ++ value ∷ []) }
{
    cells.push(value)?;
    Ok(())
}

/// Puts the values of a record, the row of that number, behind the others.
fn push_row(
    cells: &mut Vec<Value>,
    columns: &[Column],
    byte_record: &ByteRecord,
    number: u64,
) -> Result<(), TableFault>
    requires { length columns.now ≤ 24 }
    ensures ok { OnOk result ((values : List AnyValue) × (row_of number columns.now (fields_of byte_record.now) ≡ Ok values) × (cells.new.items ≡ cells.old.items ++ values)) }
    ensures err { IfErr result (λ fault. fault ≢ no_memory → row_of number columns.now (fields_of byte_record.now) ≡ Err fault) }
{
    let row = u32::try_from(number).unwrap_or(u32::MAX);
    if byte_record.len() != columns.len() {
        return Err(TableFault::RowLength(row));
    }
    for (place, column) in columns.iter().enumerate() {
        let Some(field) = byte_record.get(place) else {
            unreachable!("there is a field for each column");
        };
        let value = cell_value(column, field, row, place as u32)?;
        push(cells, value)?;
    }
    Ok(())
}

/// The values of all rows under the header, one after another, and how many rows there are. Of more
/// rows than the stated ones the values aren't kept.
pub fn read_cells(
    alloc: Global,
    bytes: &[u8],
    columns: &[Column],
    stated: u32,
) -> Result<(Vec<Value>, u64), TableFault>
    requires columns { length columns.now ≤ 24 }
    requires stated { stated ≤ 262144 }
    ensures ok { IfOk result (λ read. (rows : List (List AnyValue)) × (rows_under_header columns.now (records_of bytes.now) ≡ Ok rows)
        × (length rows ≡ read.1) × (read.0.items ≡ take (stated * length columns.now) (joined rows))) }
    ensures err { IfErr result (λ fault. fault ≢ no_memory → rows_under_header columns.now (records_of bytes.now) ≡ Err fault) }
{
    let mut reader = reader_of(alloc, bytes);
    let mut byte_record = ByteRecord::new(alloc);
    if !next_record(&mut reader, &mut byte_record)? {
        return Err(TableFault::BadHeader);
    }
    if !is_header(columns, &byte_record) {
        return Err(TableFault::BadHeader);
    }
    let most = stated as usize * columns.len();
    let mut cells = Vec::with_capacity(alloc, most + columns.len())?;
    for number in 0..u64::MAX {
        if !next_record(&mut reader, &mut byte_record)? {
            return Ok((cells, number));
        }
        push_row(&mut cells, columns, &byte_record, number)?;
        cells.truncate(most);
    }
    // No memory holds so many records.
    Err(TableFault::OutOfMemory)
}
