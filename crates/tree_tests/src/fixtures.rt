//! A table of four rows with the entries of queries over it, and shares of one bit.
ghost use Rattle.std.specs.Prelude.{IfOk};
ghost use Rattle.query_reader.specs.Accepted.{IsCheckedFor};

use cell_merge::CellTable;
use count_sum::row_cells;
use csv_tables::read_table;
use max_min_topk::key_cells;
use position_tables::position_cells;
use query_reader::{Checked, QueryFault, check_query, read_query};
use spl_values::{Schema, Table, read_shape};
use spl_words::ShareFn;
use std::alloc::{AllocError, Global};

const SHAPE: &[u8] = b"table t\nrows 4\na UINT(4)\nk ENUM(red|green|blue)\nv UINT(8)\n";

/// The table of these rows.
fn table_of(alloc: Global, rows: &[u8]) -> Option<Table> {
    let shape = read_shape(alloc, SHAPE).ok()?;
    read_table(alloc, rows, &shape).ok()
}

/// A query that is accepted.
fn checked_of(alloc: Global, schema: &Schema, text: &str) -> Result<Checked, QueryFault>
    ensures { IfOk result (λ checked. IsCheckedFor checked schema.now) }
{
    let query = read_query(alloc, text)?;
    check_query(alloc, &query, schema)
}

/// What a query's entries stand for.
#[derive(Clone, Copy)]
pub enum Entries {
    /// Each kept row, for counts and sums.
    Rows,
    /// Each key of the kept rows, for greatest and least values and best rows.
    Keys,
    /// Each place of a kept row among the rising keys.
    Positions,
}

/// The entries of an accepted query over a table.
fn made(
    alloc: Global,
    entries: Entries,
    checked: &Checked,
    table: &Table,
) -> Result<CellTable, AllocError>
    requires { IsCheckedFor checked.now table.now.shape.schema }
{
    match entries {
        Entries::Rows => row_cells(alloc, checked, table),
        Entries::Keys => key_cells(alloc, checked, table),
        Entries::Positions => position_cells(alloc, checked, table),
    }
}

/// A query, and its entries' keys and words.
#[derive(Clone, Copy)]
pub struct EntryCase {
    pub query: &'static str,
    pub keys: &'static [u128],
    pub words: &'static [u64],
}

/// Whether the entries have these keys and these words.
pub fn are_entries(found: &CellTable, keys: &[u128], words: &[u64]) -> bool {
    found.keys.as_slice() == keys && found.cells.as_slice() == words
}

/// Whether the entries of the case's query over a table are the case's.
fn has_entries(
    alloc: Global,
    entries: Entries,
    table: &Table,
    case: &EntryCase,
) -> Result<bool, QueryFault> {
    let checked = checked_of(alloc, &table.shape().schema, case.query)?;
    let found = made(alloc, entries, &checked, table)?;
    Ok(are_entries(&found, case.keys, case.words))
}

/// The query of the first case whose entries over a table are others.
fn first_other_over(
    alloc: Global,
    entries: Entries,
    table: &Table,
    cases: &[EntryCase],
) -> Option<&'static str> {
    for case in cases {
        if !matches!(has_entries(alloc, entries, table, case), Ok(true)) {
            return Some(case.query);
        }
    }
    None
}

/// The same over the table of these rows, if they are one.
pub fn first_other(
    alloc: Global,
    entries: Entries,
    rows: &[u8],
    cases: &[EntryCase],
) -> Option<&'static str> {
    match table_of(alloc, rows) {
        Some(table) => first_other_over(alloc, entries, &table, cases),
        None => Some("no table"),
    }
}

/// The shares at 0 and 1 of a function of one bit.
pub fn shares<F: ShareFn>(f: &F) -> Option<(u64, u64)> {
    if f.depth() == 1 {
        Some((f.share(0), f.share(1)))
    } else {
        None
    }
}
