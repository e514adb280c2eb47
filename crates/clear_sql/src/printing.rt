//! The text of an answer.
ghost use Rattle.std.specs.Prelude.{◌≡◌, ◌<◌, All, ◌++◌, length, codes, IfOk, IfSome, OnOk, Some, slice_get};
ghost use Rattle.std.specs.List.{AllZip};
ghost use Rattle.std.specs.Fmt.{decimal};
ghost use Rattle.spl_values.specs.Kinds.{Fits};
ghost use Rattle.spl_values.specs.CellTexts.{text_of_value};
ghost use Rattle.cell_merge.specs.TableRows.{HasColumns, SpecFits, kind_in};
ghost use Rattle.clear_sql.specs.AnswerText.{BestFits, GroupFits, LabelFits, OutcomeFits, RowFits, TopFits, answer_text, best_column, best_text, group_line, group_lines, item_text, lines_below, name_in, outcome_lines, outcome_text, results_lines, row_line, row_lines, top_columns, top_lines};

use crate::columns::column_at;
use crate::{Answer, Group, Outcome, TopRow};
use cell_merge::{CellItem, CellSpec};
use spl_values::{Bytes, Column, Schema, Value, print_value};
use std::alloc::{AllocError, Global};

/// Adds a number in decimal.
fn push_number(alloc: Global, text: &mut Vec<u8>, number: u64) -> Result<(), AllocError>
    ensures { OnOk result (text.new.items ≡ text.old.items ++ decimal number) }
{
    let digits = number.to_string(alloc)?;
    text.extend_from_slice(digits.as_bytes())?;
    Ok(())
}

/// Adds a column's name.
fn push_name(text: &mut Vec<u8>, columns: &[Column], column: u32) -> Result<(), AllocError>
    requires { column < length columns.now }
    ensures { OnOk result (text.new.items ≡ text.old.items ++ name_in columns.now column) }
{
    let found = column_at(columns, column);
    text.extend_from_slice(found.name.as_bytes())?;
    Ok(())
}

/// Adds a value of a column.
fn push_value(
    alloc: Global,
    text: &mut Vec<u8>,
    columns: &[Column],
    column: u32,
    value: Value,
) -> Result<(), AllocError>
    requires column { column < length columns.now }
    requires fits { Fits (kind_in columns.now column) value }
    ensures { OnOk result (text.new.items ≡ text.old.items ++ text_of_value (kind_in columns.now column) value) }
{
    let found = column_at(columns, column);
    let printed = print_value(alloc, &found.kind, value)?;
    text.extend_from_slice(printed.as_slice())?;
    Ok(())
}

/// Adds the word of an item, a column in parentheses and what ends it.
fn push_call(
    text: &mut Vec<u8>,
    word: &[u8],
    columns: &[Column],
    column: u32,
) -> Result<(), AllocError>
    requires { column < length columns.now }
    ensures { OnOk result (text.new.items ≡ text.old.items ++ (word.now ++ name_in columns.now column ++ codes ")")) }
{
    text.extend_from_slice(word)?;
    push_name(text, columns, column)?;
    text.push(b')')?;
    Ok(())
}

/// Adds an item of the best rows as a query writes it.
fn push_top(
    alloc: Global,
    text: &mut Vec<u8>,
    columns: &[Column],
    k: u32,
    sort: u32,
    show: u32,
) -> Result<(), AllocError>
    requires { (sort < length columns.now) × (show < length columns.now) }
    ensures { OnOk result (text.new.items ≡ text.old.items ++ (codes "TOPK(" ++ decimal k ++ codes ", " ++ name_in columns.now sort ++ codes ", " ++ name_in columns.now show ++ codes ")")) }
{
    text.extend_from_slice(b"TOPK(")?;
    push_number(alloc, text, k as u64)?;
    text.extend_from_slice(b", ")?;
    push_name(text, columns, sort)?;
    text.extend_from_slice(b", ")?;
    push_name(text, columns, show)?;
    text.push(b')')?;
    Ok(())
}

/// Adds an item as a query writes it.
#[tactic(auto, unfolding(crate::specs::AnswerText::item_text))]
fn push_item(
    alloc: Global,
    text: &mut Vec<u8>,
    columns: &[Column],
    item: CellItem,
) -> Result<(), AllocError>
    requires { HasColumns columns.now item }
    ensures { OnOk result (text.new.items ≡ text.old.items ++ item_text columns.now item) }
{
    match item {
        CellItem::Count => {
            text.extend_from_slice(b"COUNT(*)")?;
            Ok(())
        }
        CellItem::Sum(column) => push_call(text, b"SUM(", columns, column),
        CellItem::Avg(column) => push_call(text, b"AVG(", columns, column),
        CellItem::Max(column) => push_call(text, b"MAX(", columns, column),
        CellItem::Min(column) => push_call(text, b"MIN(", columns, column),
        CellItem::TopK(k, sort, show) => push_top(alloc, text, columns, k, sort, show),
    }
}

/// Adds the line of one of the best rows.
#[tactic(auto, unfolding(crate::specs::AnswerText::row_line))]
fn push_row(
    alloc: Global,
    text: &mut Vec<u8>,
    columns: &[Column],
    sort: u32,
    show: u32,
    row: TopRow,
) -> Result<(), AllocError>
    requires columns { (sort < length columns.now) × (show < length columns.now) }
    requires fits { RowFits columns.now sort show row }
    ensures { OnOk result (text.new.items ≡ text.old.items ++ row_line columns.now sort show row) }
{
    push_number(alloc, text, row.row as u64)?;
    text.push(b'|')?;
    push_value(alloc, text, columns, sort, row.sort)?;
    text.push(b'|')?;
    push_value(alloc, text, columns, show, row.show)?;
    text.push(b'\n')?;
    Ok(())
}

/// Adds the lines of the best rows.
fn push_rows(
    alloc: Global,
    text: &mut Vec<u8>,
    columns: &[Column],
    sort: u32,
    show: u32,
    rows: &[TopRow],
) -> Result<(), AllocError>
    requires columns { (sort < length columns.now) × (show < length columns.now) }
    requires fits { All (RowFits columns.now sort show) rows.now }
    ensures { OnOk result (text.new.items ≡ text.old.items ++ row_lines columns.now sort show rows.now) }
{
    for row in rows {
        push_row(alloc, text, columns, sort, show, *row)?;
    }
    Ok(())
}

/// Adds a fraction that isn't reduced.
fn push_fraction(alloc: Global, text: &mut Vec<u8>, sum: u64, count: u64) -> Result<(), AllocError>
    ensures { OnOk result (text.new.items ≡ text.old.items ++ (decimal sum ++ codes "/" ++ decimal count)) }
{
    push_number(alloc, text, sum)?;
    text.push(b'/')?;
    push_number(alloc, text, count)?;
    Ok(())
}

/// The column whose greatest or least value an item gives.
fn best_column(item: CellItem) -> Option<u32>
    ensures { result ≡ best_column item }
{
    match item {
        CellItem::Max(column) | CellItem::Min(column) => Some(column),
        CellItem::Count | CellItem::Sum(_) | CellItem::Avg(_) | CellItem::TopK(_, _, _) => None,
    }
}

/// The sort column and the shown one of an item that gives the best rows.
fn top_columns(item: CellItem) -> Option<(u32, u32)>
    ensures { result ≡ top_columns item }
{
    match item {
        CellItem::TopK(_, sort, show) => Some((sort, show)),
        CellItem::Count | CellItem::Sum(_) | CellItem::Avg(_) => None,
        CellItem::Max(_) | CellItem::Min(_) => None,
    }
}

/// Adds the greatest or least value of a column.
fn push_best(
    alloc: Global,
    text: &mut Vec<u8>,
    columns: &[Column],
    column: Option<u32>,
    value: Value,
) -> Result<(), AllocError>
    requires column { IfSome column (λ c. c < length columns.now) }
    requires fits { BestFits columns.now column value }
    ensures { OnOk result (text.new.items ≡ text.old.items ++ best_text columns.now column value) }
{
    match column {
        Some(column) => push_value(alloc, text, columns, column, value),
        None => unreachable!("the item has such a value"),
    }
}

/// Adds what stands behind the item in the first line of an outcome.
fn push_outcome(
    alloc: Global,
    text: &mut Vec<u8>,
    columns: &[Column],
    item: CellItem,
    outcome: &Outcome,
) -> Result<(), AllocError>
    requires columns { HasColumns columns.now item }
    requires fits { OutcomeFits columns.now item outcome.now }
    ensures { OnOk result (text.new.items ≡ text.old.items ++ outcome_text columns.now item outcome.now) }
{
    match outcome {
        Outcome::Count(number) => push_number(alloc, text, *number),
        Outcome::Sum(number) => push_number(alloc, text, *number),
        Outcome::Avg(sum, count) => push_fraction(alloc, text, *sum, *count),
        Outcome::Best(value) => push_best(alloc, text, columns, best_column(item), *value),
        Outcome::Null => {
            text.extend_from_slice(b"NULL")?;
            Ok(())
        }
        Outcome::Top(rows) => push_number(alloc, text, rows.as_slice().len() as u64),
    }
}

/// Adds the lines of the best rows by their two columns.
fn push_top_rows(
    alloc: Global,
    text: &mut Vec<u8>,
    columns: &[Column],
    shown: Option<(u32, u32)>,
    rows: &[TopRow],
) -> Result<(), AllocError>
    requires columns { IfSome shown (λ p. (p.0 < length columns.now) × (p.1 < length columns.now)) }
    requires fits { TopFits columns.now shown rows.now }
    ensures { OnOk result (text.new.items ≡ text.old.items ++ top_lines columns.now shown rows.now) }
{
    match shown {
        Some((sort, show)) => push_rows(alloc, text, columns, sort, show, rows),
        None => unreachable!("the item has such rows"),
    }
}

/// Adds the lines below the first one of an outcome.
fn push_below(
    alloc: Global,
    text: &mut Vec<u8>,
    columns: &[Column],
    item: CellItem,
    outcome: &Outcome,
) -> Result<(), AllocError>
    requires columns { HasColumns columns.now item }
    requires fits { OutcomeFits columns.now item outcome.now }
    ensures { OnOk result (text.new.items ≡ text.old.items ++ lines_below columns.now item outcome.now) }
{
    match outcome {
        Outcome::Top(rows) => push_top_rows(
            alloc,
            text,
            columns,
            top_columns(item),
            rows.as_slice(),
        ),
        Outcome::Count(_)
        | Outcome::Sum(_)
        | Outcome::Avg(_, _)
        | Outcome::Best(_)
        | Outcome::Null => Ok(()),
    }
}

/// Adds the lines of an outcome.
fn push_result(
    alloc: Global,
    text: &mut Vec<u8>,
    columns: &[Column],
    item: CellItem,
    outcome: &Outcome,
) -> Result<(), AllocError>
    requires columns { HasColumns columns.now item }
    requires fits { OutcomeFits columns.now item outcome.now }
    ensures { OnOk result (text.new.items ≡ text.old.items ++ outcome_lines columns.now item outcome.now) }
{
    push_item(alloc, text, columns, item)?;
    text.push(b' ')?;
    push_outcome(alloc, text, columns, item, outcome)?;
    text.push(b'\n')?;
    push_below(alloc, text, columns, item, outcome)?;
    Ok(())
}

/// Adds the lines of the outcomes of some items.
fn push_results(
    alloc: Global,
    text: &mut Vec<u8>,
    columns: &[Column],
    items: &[CellItem],
    results: &[Outcome],
) -> Result<(), AllocError>
    requires columns { All (HasColumns columns.now) items.now }
    requires fits { AllZip (OutcomeFits columns.now) items.now results.now }
    ensures { OnOk result (text.new.items ≡ text.old.items ++ results_lines columns.now items.now results.now) }
{
    for (i, item) in items.iter().enumerate() {
        push_result(alloc, text, columns, *item, &results[i])?;
    }
    Ok(())
}

/// Adds the line that begins a group.
#[tactic(auto, unfolding(crate::specs::AnswerText::group_line))]
fn push_label(
    alloc: Global,
    text: &mut Vec<u8>,
    columns: &[Column],
    group: Option<u32>,
    label: Option<u32>,
) -> Result<(), AllocError>
    requires column { IfSome group (λ column. column < length columns.now) }
    requires fits { LabelFits columns.now group label }
    ensures { OnOk result (text.new.items ≡ text.old.items ++ group_line columns.now group label) }
{
    match (group, label) {
        (Some(column), Some(label)) => {
            text.extend_from_slice(b"GROUP ")?;
            push_value(alloc, text, columns, column, Value::Label(label))?;
            text.push(b'\n')?;
            Ok(())
        }
        _ => Ok(()),
    }
}

/// Adds the lines of a group.
fn push_group(
    alloc: Global,
    text: &mut Vec<u8>,
    columns: &[Column],
    spec: &CellSpec,
    group: &Group,
) -> Result<(), AllocError>
    requires fits { SpecFits spec.now columns.now }
    requires group { GroupFits columns.now spec.now group.now }
    ensures { OnOk result (text.new.items ≡ text.old.items ++ group_lines columns.now spec.now group.now) }
{
    push_label(alloc, text, columns, spec.group, group.label)?;
    push_results(
        alloc,
        text,
        columns,
        spec.items.as_slice(),
        group.results.as_slice(),
    )?;
    Ok(())
}

/// Adds the lines of groups.
fn push_groups(
    alloc: Global,
    text: &mut Vec<u8>,
    columns: &[Column],
    spec: &CellSpec,
    groups: &[Group],
) -> Result<(), AllocError>
    requires fits { SpecFits spec.now columns.now }
    requires groups { All (GroupFits columns.now spec.now) groups.now }
    ensures { OnOk result (text.new.items ≡ text.old.items ++ answer_text columns.now spec.now groups.now) }
{
    for group in groups {
        push_group(alloc, text, columns, spec, group)?;
    }
    Ok(())
}

/// The text of an answer.
pub(crate) fn answer_text(
    alloc: Global,
    spec: &CellSpec,
    schema: &Schema,
    answer: &Answer,
) -> Result<Bytes, AllocError>
    requires fits { SpecFits spec.now schema.now.columns }
    requires groups { All (GroupFits schema.now.columns spec.now) answer.now.groups }
    ensures { IfOk result (λ text. text ≡ answer_text schema.now.columns spec.now answer.now.groups) }
{
    let columns = schema.columns.as_slice();
    let mut text = Vec::new(alloc);
    push_groups(alloc, &mut text, columns, spec, answer.groups.as_slice())?;
    Ok(Bytes::from_vec(text))
}
