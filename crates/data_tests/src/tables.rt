//! Texts are tables of a shape or refused, tables are written and digested, and rows have keys.
ghost use Rattle.std.specs.Prelude.{◌<◌, length};

use crate::fixtures::{FLIGHTS, FLIGHTS_SHAPE};
use csv_tables::*;
use spl_values::{Shape, Table, ValueFault, bits, join_key, read_shape};
use std::alloc::Global;

const ONE_TEXT: &[u8] = b"table t\nrows 1\na TEXT(3)\n";

const TWO_ROWS: &[u8] = b"table t\nrows 2\na UINT(4)\nk ENUM(x|y)\n";

/// A text, and why it is no table of the shape.
type TableCase = (&'static [u8], Option<TableFault>);

const ONE_TEXT_CASES: &[TableCase] = &[
    (b"", Some(TableFault::BadHeader)),
    (b"\n\n", Some(TableFault::BadHeader)),
    (b"A\nSFO\n", Some(TableFault::BadHeader)),
    (b"a,b\nSFO\n", Some(TableFault::BadHeader)),
    (
        b"a\n\xff\n",
        Some(TableFault::BadCell(0, 0, ValueFault::BadByte(0))),
    ),
    (
        b"a\nSFOX\n",
        Some(TableFault::BadCell(0, 0, ValueFault::TooLong(4))),
    ),
    (b"a\n", Some(TableFault::RowCount(0, 1))),
    (
        b"a\n\"a\nb\"\n",
        Some(TableFault::BadCell(0, 0, ValueFault::BadByte(1))),
    ),
    (b"\xef\xbb\xbf\"a\"\r\n\r\n\"a\"\"\"\r\n\r\n", None),
    (b"a\n\"a,b\"", None),
    (b"a\n\"\"\n", None),
];

const TWO_ROWS_CASES: &[TableCase] = &[
    (b"a,k\n1,x\n", Some(TableFault::RowCount(1, 2))),
    (b"a,k\n1,x\n1,x\n1,x\n", Some(TableFault::RowCount(3, 2))),
    (
        b"a,k\n1,x\n16,z\n1\n",
        Some(TableFault::BadCell(1, 0, ValueFault::TooLarge)),
    ),
    (b"a,k\n1,x\n1,x,\n16,z\n", Some(TableFault::RowLength(1))),
    (
        b"a,k\n1,x\n1,x\n1,z\n",
        Some(TableFault::BadCell(2, 1, ValueFault::NoSuchLabel)),
    ),
    (
        b"a,k\n 1,x\n1,x\n",
        Some(TableFault::BadCell(0, 0, ValueFault::NotANumber)),
    ),
];

/// The first text that is taken otherwise.
fn first_other_table(alloc: Global, shape: &Shape, cases: &[TableCase]) -> Option<usize> {
    for (at, (text, wanted)) in cases.iter().enumerate() {
        if read_table(alloc, text, shape).err() != *wanted {
            return Some(at);
        }
    }
    None
}

/// The same where the shape is a text.
fn first_other_of(alloc: Global, shape: &[u8], cases: &[TableCase]) -> Option<usize> {
    match read_shape(alloc, shape) {
        Ok(shape) => first_other_table(alloc, &shape, cases),
        Err(_) => Some(cases.len()),
    }
}

#[test]
fn table_faults_of_one_text(rt: HostRuntime) {
    assert_eq!(rt; first_other_of(rt.alloc(), ONE_TEXT, ONE_TEXT_CASES), None);
}

#[test]
fn table_faults_of_two_rows(rt: HostRuntime) {
    assert_eq!(rt; first_other_of(rt.alloc(), TWO_ROWS, TWO_ROWS_CASES), None);
}

/// The same table with quotes, returns and a number's zero that it need not have.
const QUOTED: &[u8] =
    b"\"origin\",dest,month,price\r\nSFO,JFK,03,300\nSFO,JFK,4,450\nSFO,\"BOS\",3,200\nLAX,JFK,5,310\nSFO,JFK,5,600";

/// Whether that is a table's text.
fn is_text_of(alloc: Global, table: &Table, wanted: &[u8]) -> bool {
    match write_table(alloc, table) {
        Ok(found) => found.as_slice() == wanted,
        Err(_) => false,
    }
}

/// Whether that is the text of the table that a text is.
fn is_written(alloc: Global, text: &[u8], shape: &Shape, wanted: &[u8]) -> bool {
    match read_table(alloc, text, shape) {
        Ok(table) => is_text_of(alloc, &table, wanted),
        Err(_) => false,
    }
}

/// The same where the shape is a text.
fn is_written_of(alloc: Global, shape: &[u8], text: &[u8], wanted: &[u8]) -> bool {
    match read_shape(alloc, shape) {
        Ok(shape) => is_written(alloc, text, &shape, wanted),
        Err(_) => false,
    }
}

const FOUR_LETTERS: &[u8] = b"table t\nrows 3\na TEXT(4)\n";

const NEED_QUOTES: &[u8] = b"a\n\"a,b\"\n\"\"\"\"\n\"\"\n";

#[test]
fn tables_are_written(rt: HostRuntime) {
    let found = [
        is_written_of(rt.alloc(), FLIGHTS_SHAPE, FLIGHTS, FLIGHTS),
        is_written_of(rt.alloc(), FLIGHTS_SHAPE, QUOTED, FLIGHTS),
        is_written_of(rt.alloc(), FOUR_LETTERS, NEED_QUOTES, NEED_QUOTES),
    ];
    assert_eq!(rt; found, [true; 3]);
}

/// SHA-256 of the shape's text and the table's, by sha256sum.
const FLIGHTS_DIGEST: [u8; 32] = [
    0x00, 0xbc, 0x35, 0x63, 0xdc, 0x4d, 0xde, 0x2e, 0xd8, 0x6b, 0x69, 0xc6, 0xd9, 0x40, 0x5b, 0x5a,
    0x51, 0xa7, 0x14, 0x2b, 0x2c, 0x42, 0x86, 0x3e, 0xef, 0x70, 0xa2, 0xfd, 0xb2, 0x00, 0xce, 0xef,
];

/// Whether a table's digest is that of the flights.
fn has_digest(alloc: Global, table: &Table) -> bool {
    match table_digest(alloc, table) {
        Ok(found) => found == FLIGHTS_DIGEST,
        Err(_) => false,
    }
}

/// Whether the digest of the table that a text is is that of the flights.
fn is_digested(alloc: Global, text: &[u8], shape: &Shape) -> bool {
    match read_table(alloc, text, shape) {
        Ok(table) => has_digest(alloc, &table),
        Err(_) => false,
    }
}

/// The same where the shape is that of the flights.
fn is_flights(alloc: Global, text: &[u8]) -> bool {
    match read_shape(alloc, FLIGHTS_SHAPE) {
        Ok(shape) => is_digested(alloc, text, &shape),
        Err(_) => false,
    }
}

#[test]
fn flights_are_digested(rt: HostRuntime) {
    let found = [
        is_flights(rt.alloc(), FLIGHTS),
        is_flights(rt.alloc(), QUOTED),
    ];
    assert_eq!(rt; found, [true; 2]);
}

/// The key of the first row over two columns, if there is a row and the key has at most 128 bits.
fn first_key(table: &Table, high: u32, low: u32) -> Option<u128>
    requires high { high < length table.now.shape.schema.columns }
    requires low { low < length table.now.shape.schema.columns }
{
    let key_bits = bits(&table.column(high).kind) + bits(&table.column(low).kind);
    if table.shape().rows == 0 || key_bits > 128 {
        return None;
    }
    Some(join_key(table, &[high, low], 0))
}

/// The keys of the first row over its first and third column, either of them the highest.
fn two_keys(table: &Table) -> [Option<u128>; 2] {
    if table.shape().schema.columns.as_slice().len() == 4 {
        [first_key(table, 0, 2), first_key(table, 2, 0)]
    } else {
        [None; 2]
    }
}

/// The same of the table of flights.
fn flight_keys(alloc: Global, shape: &Shape) -> [Option<u128>; 2] {
    match read_table(alloc, FLIGHTS, shape) {
        Ok(table) => two_keys(&table),
        Err(_) => [None; 2],
    }
}

/// The same where the shape is a text.
fn keys_of_flights(alloc: Global) -> [Option<u128>; 2] {
    match read_shape(alloc, FLIGHTS_SHAPE) {
        Ok(shape) => flight_keys(alloc, &shape),
        Err(_) => [None; 2],
    }
}

// SFO is 0x53464f, or 5457487, and the month is 3.
#[test]
fn keys_have_the_first_column_highest(rt: HostRuntime) {
    let keys = [Some(5457487 * 16 + 3), Some(3 * 16777216 + 5457487)];
    assert_eq!(rt; keys_of_flights(rt.alloc()), keys);
}
