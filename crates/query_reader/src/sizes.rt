//! What a cell of a query keeps, and the refusals of size.
ghost use Rattle.std.specs.Prelude.{◌≡◌, ◌^◌, ◌-◌, min, map, length, IfOk, option_map};
ghost use Rattle.query_reader.specs.Columns.{place_of};
ghost use Rattle.query_reader.specs.Refusals.{cell_item as item_of_cell, spec_of, group_labels as labels_of_group, cells_too_wide, too_long, size_refusal};
ghost use Rattle.query_tokens.specs.Printing.{canonical_text};
ghost use Rattle.query_reader.specs.Accepted.{Finds, TellsFault};

use crate::columns::{label_count, place};
use cell_merge::{CellItem, CellItems, CellSpec, width};
use query_parser::{Item, Query, QueryFault, print_query};
use spl_values::{Name, Schema};
use std::alloc::{AllocError, Global};

/// The item, with the places of its columns.
fn cell_item(schema: &Schema, item: &Item) -> CellItem
    ensures { result ≡ item_of_cell schema.now item.now }
{
    match item {
        Item::Count => CellItem::Count,
        Item::Sum(name) => CellItem::Sum(place(schema, name)),
        Item::Avg(name) => CellItem::Avg(place(schema, name)),
        Item::Max(name) => CellItem::Max(place(schema, name)),
        Item::Min(name) => CellItem::Min(place(schema, name)),
        Item::TopK(count, sort, show) => CellItem::TopK(
            u32::try_from(*count).unwrap_or(u32::MAX),
            place(schema, sort),
            place(schema, show),
        ),
    }
}

fn cell_items(alloc: Global, schema: &Schema, items: &[Item]) -> Result<CellItems, AllocError>
    ensures { IfOk result (λ cells. cells ≡ map (item_of_cell schema.now) items.now) }
{
    let mut cells = Vec::new(alloc);
    for item in items {
        cells.push(cell_item(schema, item))?;
    }
    Ok(CellItems::from_vec(cells))
}

/// The place of the group's column.
fn group_place(schema: &Schema, group: &Option<Name>) -> Option<u32>
    ensures { result ≡ option_map (place_of schema.now) group.now }
{
    match group {
        Some(name) => Some(place(schema, name)),
        None => None,
    }
}

/// How many labels the group's column has; 1 where there is none.
fn group_labels(schema: &Schema, group: &Option<Name>) -> u32
    ensures { result ≡ labels_of_group schema.now group.now }
{
    match group {
        Some(name) => label_count(schema, name),
        None => 1,
    }
}

/// What a cell of the query keeps.
pub(crate) fn cell_spec(
    alloc: Global,
    query: &Query,
    schema: &Schema,
) -> Result<CellSpec, AllocError>
    ensures { IfOk result (λ spec. spec ≡ spec_of query.now schema.now) }
{
    let items = cell_items(alloc, schema, query.items.as_slice())?;
    Ok(CellSpec {
        group: group_place(schema, &query.group),
        labels: group_labels(schema, &query.group),
        items,
    })
}

fn check_cells(spec: &CellSpec) -> Result<(), QueryFault>
    ensures { Finds result (cells_too_wide spec.now) }
{
    let words = width(spec);
    if words > 128 {
        Err(QueryFault::CellsTooWide(words))
    } else {
        Ok(())
    }
}

fn check_length(alloc: Global, query: &Query) -> Result<(), QueryFault>
    ensures { TellsFault result (too_long (canonical_text query.now)) }
{
    let text = print_query(alloc, query)?;
    let bytes = text.as_slice().len();
    if bytes > 4096 {
        Err(QueryFault::TooLong(bytes as u64))
    } else {
        Ok(())
    }
}

/// A cell isn't too wide, and the canonical text isn't too long.
#[tactic(auto, unfolding(crate::specs::Refusals::size_refusal))]
pub(crate) fn check_sizes(alloc: Global, query: &Query, schema: &Schema) -> Result<(), QueryFault>
    ensures { TellsFault result (size_refusal query.now schema.now) }
{
    let spec = cell_spec(alloc, query, schema)?;
    check_cells(&spec)?;
    check_length(alloc, query)
}
