//! Queries over a schema are accepted with what is known of them. The cases of whole commands have the refusals.
use crate::fixtures::{FLIGHTS, checked_of, schema_of};
use cell_merge::CellItem;
use query_reader::Checked;
use spl_values::Schema;
use std::alloc::Global;

/// A query over flights, the bounds of its public conditions, its columns, whether the last has a range, its branches,
/// the bits of its key, and its items.
#[derive(Clone, Copy)]
struct KnownCase {
    query: &'static str,
    public: &'static [(u32, u128, u128)],
    columns: &'static [u32],
    range: bool,
    branches: u32,
    bits: u32,
    items: &'static [CellItem],
}

const CASES: &[KnownCase] = &[
    KnownCase {
        query: "SELECT COUNT(*), SUM(price), AVG(price) FROM flights WHERE origin = ? AND dest = ? AND price BETWEEN ? AND ?",
        public: &[],
        columns: &[0, 1, 3],
        range: true,
        branches: 1,
        bits: 64,
        items: &[CellItem::Count, CellItem::Sum(3), CellItem::Avg(3)],
    },
    // behind a range of months and a destination
    KnownCase {
        query: "SELECT MAX(price) FROM flights WHERE month BETWEEN 3 AND 4 AND (origin = ? OR origin = ?) AND dest = 'JFK'",
        public: &[(2, 3, 4), (1, 0x4a464b, 0x4a464b)],
        columns: &[0],
        range: false,
        branches: 2,
        bits: 24,
        items: &[CellItem::Max(3)],
    },
];

fn has_public(checked: &Checked, public: &[(u32, u128, u128)]) -> bool {
    checked.public.as_slice() == public
}

fn has_columns(checked: &Checked, columns: &[u32], range: bool) -> bool {
    checked.columns.as_slice() == columns && checked.range == range
}

fn has_sizes(checked: &Checked, branches: u32, bits: u32) -> bool {
    checked.branches == branches && checked.bits == bits
}

fn has_items(checked: &Checked, items: &[CellItem]) -> bool {
    checked.spec.items.as_slice() == items
}

/// Whether that is known of a query.
fn is_known(checked: &Checked, case: &KnownCase) -> bool {
    let found = [
        has_public(checked, case.public),
        has_columns(checked, case.columns, case.range),
        has_sizes(checked, case.branches, case.bits),
        has_items(checked, case.items),
    ];
    found == [true; 4]
}

/// Whether the case's query is accepted, and that is known of it.
fn is_accepted(alloc: Global, schema: &Schema, case: &KnownCase) -> bool {
    match checked_of(alloc, schema, case.query) {
        Ok(checked) => is_known(&checked, case),
        Err(_) => false,
    }
}

/// The first case that isn't accepted so.
fn first_other(alloc: Global, schema: &Schema) -> Option<&'static str> {
    for case in CASES {
        if !is_accepted(alloc, schema, case) {
            return Some(case.query);
        }
    }
    None
}

#[test]
fn queries_are_accepted(rt: HostRuntime) {
    let other = match schema_of(rt.alloc(), FLIGHTS) {
        Ok(schema) => first_other(rt.alloc(), &schema),
        Err(_) => Some("no schema"),
    };
    assert_eq!(rt; other, None);
}
