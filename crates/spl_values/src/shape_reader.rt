//! Reading the text of a shape.
ghost use Rattle.std.specs.Prelude.{◌≡◌, ◌≢◌, ◌==◌, ◌+◌, ◌-◌, ◌^◌, ◌≤◌, [], ◌∷◌, ◌++◌, IsTrue, IfOk, IfErr, OnOk, Ok, Err, Some, length, min, option_map, option_and_then};
ghost use Rattle.std.specs.List.{list_all, list_any, slice_split};
ghost use Rattle.std.specs.Option.{option_copied};
ghost use Rattle.std.specs.Str.{bytes_eq};
ghost use Rattle.std.specs.Str.Lines.{lines};
ghost use Rattle.spl_values.specs.Names.{is_label_byte};
ghost use Rattle.spl_values.specs.Kinds.{is_kind};
ghost use Rattle.spl_values.specs.ShapeTexts.{after_prefix, plain_number, between, if_kind, kind_of_text, column_of_line, added, table_of_line, rows_of_line, columns_of_lines, shape_of};
ghost use Rattle.spl_values.specs.declared.kinds.ColumnType.TheVariants as any_kind;
ghost use Rattle.spl_values.specs.declared.shape_reader.ShapeFault.TheVariants.{OutOfMemory as no_memory};

use crate::cells::{is_number, number};
use crate::columns::{Column, Columns, Schema, Shape};
use crate::cuts::{cut, first_line};
use crate::kinds::{ColumnType, MAX_LABELS, is_kind};
use crate::lists::{Labels, Name};
use crate::names::{is_label, is_name};
use std::alloc::{AllocError, Global};

/// The most columns of a table.
const MAX_COLUMNS: usize = 24;

/// The most rows of a table.
const MAX_ROWS: u32 = 262_144;

/// Why a text describes no shape. Lines are counted from 1.
#[derive(Clone, Copy, Debug, PartialEq, Eq)]
pub enum ShapeFault {
    /// That line doesn't read, or is missing.
    BadLine(u32),
    /// The column on that line has the name of an earlier one.
    SameName(u32),
    /// That line has the 25th column.
    TooManyColumns(u32),
    /// Line 2 has more than 262,144 rows.
    TooManyRows,
    /// There is no memory.
    OutOfMemory,
}

impl From<AllocError> for ShapeFault {
    ghost use Rattle.std.specs.Prelude.{◌≡◌};
    ghost use Rattle.spl_values.specs.declared.shape_reader.ShapeFault.TheVariants as variant;

    ghost from_gives = { λ _ fault. fault ≡ variant.OutOfMemory };

    fn from(_error: AllocError) -> ShapeFault {
        ShapeFault::OutOfMemory
    }
}

fn after_prefix<'a>(prefix: &[u8], text: &'a [u8]) -> Option<&'a [u8]>
    ensures { option_copied result ≡ after_prefix prefix.now text.now }
{
    text.strip_prefix(prefix)
}

/// What stands between a prefix and a closing parenthesis at the end.
#[tactic(auto, unfolding(crate::specs::ShapeTexts::between))]
fn between<'a>(prefix: &[u8], text: &'a [u8]) -> Option<&'a [u8]>
    ensures { option_copied result ≡ between prefix.now text.now }
{
    match after_prefix(prefix, text)? {
        [inner @ .., b')'] => Some(inner),
        _ => None,
    }
}

/// The number of a text without leading zeros, or the greatest `u32` where that is greater.
fn plain_number(text: &[u8]) -> Option<u32>
    ensures { result ≡ option_map (λ n. min n (2 ^ 32 - 1)) (plain_number text.now) }
{
    if !is_number(text) {
        return None;
    }
    if text.len() > 1 && text[0] == b'0' {
        return None;
    }
    match number(text) {
        Ok(number) => Some(u32::try_from(number).unwrap_or(u32::MAX)),
        Err(_) => Some(u32::MAX),
    }
}

/// The name with these bytes.
fn name_of(alloc: Global, bytes: &[u8]) -> Result<Name, AllocError>
    requires { IsTrue (list_all is_label_byte bytes.now) }
    ensures { IfOk result (λ name. name ≡ bytes.now) }
{
    match str::from_utf8(bytes) {
        Ok(text) => Ok(Name::from_string(String::from_str(alloc, text)?)),
        Err(_) => unreachable!("the bytes of names are text"),
    }
}

/// A type, if a column may have it.
fn if_kind(kind: ColumnType) -> Option<ColumnType>
    ensures { result ≡ if_kind kind }
{
    if is_kind(&kind) { Some(kind) } else { None }
}

/// The labels of a type, with a bar between two of them.
fn read_labels(alloc: Global, text: &[u8]) -> Result<Option<ColumnType>, AllocError>
    ensures { IfOk result (λ kind. kind ≡ if_kind (any_kind.Enum (slice_split (λ b. b == 124) text.now))) }
{
    let mut labels: Vec<Name> = Vec::new(alloc);
    let mut left = Some(text);
    while let Some(text) = left {
        let (label, rest) = cut(text, b'|');
        if labels.len() == MAX_LABELS || !is_label(label) {
            return Ok(None);
        }
        labels.push(name_of(alloc, label)?)?;
        left = rest;
    }
    Ok(if_kind(ColumnType::Enum(Labels::from_vec(labels))))
}

/// A type of numbers, from the digits of its bits.
fn number_kind(digits: &[u8]) -> Option<ColumnType>
    ensures { result ≡ option_and_then (λ b. if_kind (any_kind.Uint b)) (plain_number digits.now) }
{
    if_kind(ColumnType::Uint(plain_number(digits)?))
}

/// A type of texts, from the digits of its bytes.
fn text_kind(digits: &[u8]) -> Option<ColumnType>
    ensures { result ≡ option_and_then (λ k. if_kind (any_kind.Text k)) (plain_number digits.now) }
{
    if_kind(ColumnType::Text(plain_number(digits)?))
}

/// The type that a text spells, if a column may have it.
#[tactic(auto, unfolding(crate::specs::ShapeTexts::kind_of_text))]
fn read_kind(alloc: Global, text: &[u8]) -> Result<Option<ColumnType>, AllocError>
    ensures { IfOk result (λ kind. kind ≡ kind_of_text text.now) }
{
    if let Some(bits) = between(b"UINT(", text) {
        return Ok(number_kind(bits));
    }
    if let Some(bytes) = between(b"TEXT(", text) {
        return Ok(text_kind(bytes));
    }
    match between(b"ENUM(", text) {
        Some(labels) => read_labels(alloc, labels),
        None => Ok(None),
    }
}

/// The column of a line.
fn read_column(alloc: Global, line: &[u8]) -> Result<Option<Column>, AllocError>
    ensures { IfOk result (λ column. column ≡ column_of_line line.now) }
{
    let (name, rest) = cut(line, b' ');
    let Some(text) = rest else {
        return Ok(None);
    };
    if !is_name(name) {
        return Ok(None);
    }
    let Some(kind) = read_kind(alloc, text)? else {
        return Ok(None);
    };
    let name = name_of(alloc, name)?;
    Ok(Some(Column { name, kind }))
}

/// Line 1, the table's name.
#[tactic(auto, unfolding(crate::specs::ShapeTexts::table_of_line))]
fn read_table_name(alloc: Global, line: &[u8]) -> Result<Name, ShapeFault>
    ensures ok { IfOk result (λ name. table_of_line line.now ≡ Ok name) }
    ensures err { IfErr result (λ fault. fault ≢ no_memory → table_of_line line.now ≡ Err fault) }
{
    match after_prefix(b"table ", line) {
        Some(name) if is_name(name) => Ok(name_of(alloc, name)?),
        _ => Err(ShapeFault::BadLine(1)),
    }
}

/// Line 2, the number of rows.
#[tactic(auto, unfolding(crate::specs::ShapeTexts::rows_of_line))]
fn read_rows(line: &[u8]) -> Result<u32, ShapeFault>
    ensures { result ≡ rows_of_line line.now }
{
    let Some(text) = after_prefix(b"rows ", line) else {
        return Err(ShapeFault::BadLine(2));
    };
    match plain_number(text) {
        Some(number) if number <= MAX_ROWS => Ok(number),
        Some(_) => Err(ShapeFault::TooManyRows),
        None => Err(ShapeFault::BadLine(2)),
    }
}

/// Whether one of the columns has that column's name.
fn has_name_of(columns: &[Column], column: &Column) -> bool
    ensures { result ≡ list_any (λ other. bytes_eq column.now.name other.name) columns.now }
{
    let name = &column.name;
    columns.iter().any(|other| *name == other.name)
}

/// The column of a line that comes behind other column lines.
fn read_next(alloc: Global, before: &[Column], line: &[u8]) -> Result<Column, ShapeFault>
    requires { length before.now ≤ 24 }
    ensures ok { IfOk result (λ column. added (length before.now + 3) before.now (column_of_line line.now) ≡ Ok (before.now ++ column ∷ [])) }
    ensures err { IfErr result (λ fault. fault ≢ no_memory → added (length before.now + 3) before.now (column_of_line line.now) ≡ Err fault) }
{
    let number = before.len() as u32 + 3;
    let Some(column) = read_column(alloc, line)? else {
        return Err(ShapeFault::BadLine(number));
    };
    if has_name_of(before, &column) {
        return Err(ShapeFault::SameName(number));
    }
    Ok(column)
}

fn push(columns: &mut Vec<Column>, column: Column) -> Result<(), AllocError>
    ensures { OnOk result (columns.new.items ≡ columns.old.items ++ column ∷ []) }
{
    columns.push(column)?;
    Ok(())
}

/// The column lines of a text, which are all of its lines.
fn read_columns(alloc: Global, text: &[u8]) -> Result<Columns, ShapeFault>
    ensures ok { IfOk result (λ columns. columns_of_lines [] (lines text.now) ≡ Ok columns) }
    ensures err { IfErr result (λ fault. fault ≢ no_memory → columns_of_lines [] (lines text.now) ≡ Err fault) }
{
    let mut columns: Vec<Column> = Vec::new(alloc);
    let mut left = text;
    while let Some((line, rest)) = first_line(left) {
        if columns.len() == MAX_COLUMNS {
            return Err(ShapeFault::TooManyColumns(27));
        }
        let column = read_next(alloc, columns.as_slice(), line)?;
        push(&mut columns, column)?;
        left = rest;
    }
    if columns.is_empty() {
        return Err(ShapeFault::BadLine(3));
    }
    Ok(Columns::from_vec(columns))
}

/// The shape that a text describes, or its first line at fault, and why.
///
/// The text is lines: `table NAME`, `rows N`, and for each column `NAME TYPE`, with one space
/// between the two. A line ends with a line feed, or with a carriage return and a line feed, and
/// the last line may lack its end.
pub fn read_shape(alloc: Global, bytes: &[u8]) -> Result<Shape, ShapeFault>
    ensures ok { IfOk result (λ shape. shape_of bytes.now ≡ Ok shape) }
    ensures err { IfErr result (λ fault. fault ≢ no_memory → shape_of bytes.now ≡ Err fault) }
{
    let Some((first, left)) = first_line(bytes) else {
        return Err(ShapeFault::BadLine(1));
    };
    let table = read_table_name(alloc, first)?;
    let Some((second, left)) = first_line(left) else {
        return Err(ShapeFault::BadLine(2));
    };
    let rows = read_rows(second)?;
    let columns = read_columns(alloc, left)?;
    let schema = Schema { table, columns };
    Ok(Shape { schema, rows })
}
