//! The answer that a cell stands for.
ghost use Rattle.std.specs.Prelude.{◌≡◌, ◌*◌, ◌==◌, ◌<◌, All, [], ◌∷◌, ◌++◌, length, map, drop, IfOk, OnOk, if◌then◌else◌};
ghost use Rattle.std.specs.List.{AllByRecursion};
ghost use Rattle.cell_merge.specs.Entries.{entries_of};
ghost use Rattle.cell_merge.specs.Cells.{item_width, block_width, blocks, cell_width};
ghost use Rattle.cell_merge.specs.TableRows.{HasColumns, SpecFits, kind_in};
ghost use Rattle.clear_sql.specs.Clear.{value_in};
ghost use Rattle.clear_sql.specs.CellAnswers.{IsCode, EntryReads, ItemReads, ItemsRead, BlocksRead, entry_row, label_group, outcome_of, results_of, groups_of, answer_of};

use crate::columns::column_at;
use crate::{Answer, Group, Groups, Outcome, Outcomes, TopRow, TopRows};
use cell_merge::{CellItem, CellSpec, block_words, item_words};
use spl_values::{Column, Schema, Value, decode, laws};
use std::alloc::{AllocError, Global};

/// The value of a column with that code.
fn value_of(columns: &[Column], column: u32, code: u64) -> Value
    requires column { column < length columns.now }
    requires code { IsCode (kind_in columns.now column) code }
    ensures { result ≡ value_in columns.now column code }
{
    laws::codes_differ();
    let found = column_at(columns, column);
    match decode(&found.kind, code as u128) {
        Some(value) => value,
        None => unreachable!("the code is one of a value"),
    }
}

/// Adds the entry that three words hold, unless its place is 0.
fn push_entry(
    rows: &mut Vec<TopRow>,
    columns: &[Column],
    sort: u32,
    show: u32,
    entry: &[u64],
) -> Result<(), AllocError>
    requires columns { (sort < length columns.now) × (show < length columns.now) }
    requires length { length entry.now ≡ 3 }
    requires words { AllByRecursion (EntryReads columns.now sort show) (entries_of entry.now) }
    ensures { OnOk result (rows.new.items ≡ rows.old.items ++ map (entry_row columns.now sort show) (entries_of entry.now)) }
{
    let place = entry[0];
    if place == 0 {
        return Ok(());
    }
    let row = (place - 1) as u32;
    let sort_value = value_of(columns, sort, entry[1]);
    let show_value = value_of(columns, show, entry[2]);
    rows.push(TopRow {
        row,
        sort: sort_value,
        show: show_value,
    })?;
    Ok(())
}

/// The entries in some words, but for those whose place is 0.
fn top_rows(
    alloc: Global,
    columns: &[Column],
    sort: u32,
    show: u32,
    words: &[u64],
) -> Result<TopRows, AllocError>
    requires columns { (sort < length columns.now) × (show < length columns.now) }
    requires words { AllByRecursion (EntryReads columns.now sort show) (entries_of words.now) }
    ensures { IfOk result (λ rows. rows ≡ map (entry_row columns.now sort show) (entries_of words.now)) }
{
    let mut rows = Vec::new(alloc);
    for i in 0..words.len() / 3 {
        push_entry(&mut rows, columns, sort, show, &words[3 * i..3 * i + 3])?;
    }
    Ok(TopRows::from_vec(rows))
}

/// An outcome, or none where there is no row.
fn over_rows(count: u64, outcome: Outcome) -> Outcome
    ensures { result ≡ (if count == 0 then Outcome.Null else outcome) }
{
    if count == 0 { Outcome::Null } else { outcome }
}

/// What an item's words say, beside a count of rows.
fn outcome_of(
    alloc: Global,
    columns: &[Column],
    item: CellItem,
    count: u64,
    words: &[u64],
) -> Result<Outcome, AllocError>
    requires columns { HasColumns columns.now item }
    requires length { length words.now ≡ item_width item }
    requires words { ItemReads columns.now item words.now }
    ensures { IfOk result (λ outcome. outcome ≡ outcome_of columns.now item count words.now) }
{
    match item {
        CellItem::Count => Ok(Outcome::Count(count)),
        CellItem::Sum(_) => Ok(over_rows(count, Outcome::Sum(words[0]))),
        CellItem::Avg(_) => Ok(over_rows(count, Outcome::Avg(words[0], count))),
        CellItem::Max(column) | CellItem::Min(column) => {
            let best = value_of(columns, column, words[0]);
            Ok(over_rows(count, Outcome::Best(best)))
        }
        CellItem::TopK(_, sort, show) => {
            let rows = top_rows(alloc, columns, sort, show, words)?;
            Ok(Outcome::Top(rows))
        }
    }
}

/// What a block says.
fn results_of(
    alloc: Global,
    columns: &[Column],
    items: &[CellItem],
    block: &[u64],
) -> Result<Outcomes, AllocError>
    requires columns { All (HasColumns columns.now) items.now }
    requires length { length block.now ≡ block_width items.now }
    requires words { ItemsRead columns.now items.now (drop 1 block.now) }
    ensures { IfOk result (λ results. results ≡ results_of columns.now items.now block.now) }
{
    let count = block[0];
    let mut results = Vec::new(alloc);
    let mut at = 1;
    for item in items {
        let end = at + item_words(*item);
        let outcome = outcome_of(alloc, columns, *item, count, &block[at..end])?;
        results.push(outcome)?;
        at = end;
    }
    Ok(Outcomes::from_vec(results))
}

/// Adds the group of a label's block, unless its count is 0.
fn push_label(
    alloc: Global,
    groups: &mut Vec<Group>,
    columns: &[Column],
    items: &[CellItem],
    label: u32,
    block: &[u64],
) -> Result<(), AllocError>
    requires columns { All (HasColumns columns.now) items.now }
    requires length { length block.now ≡ block_width items.now }
    requires words { ItemsRead columns.now items.now (drop 1 block.now) }
    ensures { OnOk result (groups.new.items ≡ groups.old.items ++ label_group columns.now items.now label block.now) }
{
    let rows = block[0];
    if rows == 0 {
        return Ok(());
    }
    let results = results_of(alloc, columns, items, block)?;
    groups.push(Group {
        label: Some(label),
        results,
    })?;
    Ok(())
}

/// The groups of the labels whose count isn't 0.
fn groups_of(
    alloc: Global,
    columns: &[Column],
    items: &[CellItem],
    labels: u32,
    cell: &[u64],
) -> Result<Groups, AllocError>
    requires columns { All (HasColumns columns.now) items.now }
    requires length { length cell.now ≡ labels * block_width items.now }
    requires some { 0 < labels }
    requires words { BlocksRead columns.now items.now labels cell.now }
    ensures { IfOk result (λ groups. groups ≡ groups_of columns.now items.now 0 labels cell.now) }
{
    let words = block_words(items);
    let mut groups = Vec::new(alloc);
    for label in 0..labels {
        let at = label as usize * words;
        push_label(
            alloc,
            &mut groups,
            columns,
            items,
            label,
            &cell[at..at + words],
        )?;
    }
    Ok(Groups::from_vec(groups))
}

/// The one group of a cell of one block.
fn whole_group(
    alloc: Global,
    columns: &[Column],
    items: &[CellItem],
    cell: &[u64],
) -> Result<Groups, AllocError>
    requires columns { All (HasColumns columns.now) items.now }
    requires length { length cell.now ≡ block_width items.now }
    requires words { ItemsRead columns.now items.now (drop 1 cell.now) }
    ensures { IfOk result (λ groups. groups ≡ record { label = None; results = results_of columns.now items.now cell.now } ∷ []) }
{
    let results = results_of(alloc, columns, items, cell)?;
    let mut groups = Vec::new(alloc);
    groups.push(Group {
        label: None,
        results,
    })?;
    Ok(Groups::from_vec(groups))
}

/// The groups of a cell.
fn groups_in(
    alloc: Global,
    columns: &[Column],
    spec: &CellSpec,
    cell: &[u64],
) -> Result<Groups, AllocError>
    requires fits { SpecFits spec.now columns.now }
    requires length { length cell.now ≡ cell_width spec.now }
    requires words { BlocksRead columns.now spec.now.items (blocks spec.now.group spec.now.labels) cell.now }
    ensures { IfOk result (λ groups. groups ≡ answer_of columns.now spec.now cell.now) }
{
    let items = spec.items.as_slice();
    match spec.group {
        None => whole_group(alloc, columns, items, cell),
        Some(_) => {
            if spec.labels == 0 {
                return Ok(Groups::from_vec(Vec::new(alloc)));
            }
            groups_of(alloc, columns, items, spec.labels, cell)
        }
    }
}

/// The answer that a cell stands for.
pub(crate) fn cell_answer(
    alloc: Global,
    spec: &CellSpec,
    schema: &Schema,
    cell: &[u64],
) -> Result<Answer, AllocError>
    requires fits { SpecFits spec.now schema.now.columns }
    requires length { length cell.now ≡ cell_width spec.now }
    requires words { BlocksRead schema.now.columns spec.now.items (blocks spec.now.group spec.now.labels) cell.now }
    ensures { IfOk result (λ answer. answer.groups ≡ answer_of schema.now.columns spec.now cell.now) }
{
    let columns = schema.columns.as_slice();
    let groups = groups_in(alloc, columns, spec, cell)?;
    Ok(Answer { groups })
}
