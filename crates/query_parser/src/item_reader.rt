//! The items behind SELECT.
ghost use Rattle.std.specs.Prelude.{◌≡◌, ◌<◌, ◌≤◌, [], length, OnOk};
ghost use Rattle.query_grammar.specs.Machine.{aggregate_item as item_aggregate, Items, Table};
ghost use Rattle.query_parser.specs.Reading.{Moves};
ghost use Rattle.query_parser.specs.Parsing.{GivesAt, count_at, aggregate_at, top_at, item_at, more_at, listed_at};

use crate::cursor::Cursor;
use crate::fault::{ReadFault, Unread};
use query_grammar::{Aggregate, Item, Symbol, Token};
use spl_values::Name;
use std::alloc::Global;

/// The item of a function of one column.
fn aggregate_item(aggregate: Aggregate, name: Name) -> Item
    ensures { result ≡ item_aggregate aggregate name }
{
    match aggregate {
        Aggregate::Sum => Item::Sum(name),
        Aggregate::Avg => Item::Avg(name),
        Aggregate::Max => Item::Max(name),
        Aggregate::Min => Item::Min(name),
    }
}

/// What stands behind COUNT.
#[tactic(auto, unfolding(crate::specs::Parsing::count_at))]
fn count_item(cursor: &mut Cursor) -> Result<Item, Unread>
    ensures read { GivesAt result cursor.new (count_at cursor.old) }
    ensures left { length cursor.new.tokens ≤ length cursor.old.tokens }
{
    cursor.expect(Symbol::Open)?;
    cursor.expect(Symbol::Star)?;
    cursor.expect(Symbol::Close)?;
    Ok(Item::Count)
}

/// What stands behind a function of one column.
#[tactic(auto, unfolding(crate::specs::Parsing::aggregate_at))]
fn column_item(cursor: &mut Cursor, aggregate: Aggregate) -> Result<Item, Unread>
    ensures read { GivesAt result cursor.new (aggregate_at aggregate cursor.old) }
    ensures left { length cursor.new.tokens ≤ length cursor.old.tokens }
{
    cursor.expect(Symbol::Open)?;
    let name = cursor.name()?;
    cursor.expect(Symbol::Close)?;
    Ok(aggregate_item(aggregate, name))
}

/// What stands behind TOPK.
#[tactic(auto, unfolding(crate::specs::Parsing::top_at))]
fn top_item(cursor: &mut Cursor) -> Result<Item, Unread>
    ensures read { GivesAt result cursor.new (top_at cursor.old) }
    ensures left { length cursor.new.tokens ≤ length cursor.old.tokens }
{
    cursor.expect(Symbol::Open)?;
    let count = cursor.number()?;
    cursor.expect(Symbol::Comma)?;
    let sort = cursor.name()?;
    cursor.expect(Symbol::Comma)?;
    let show = cursor.name()?;
    cursor.expect(Symbol::Close)?;
    Ok(Item::TopK(count, sort, show))
}

/// An item of the list behind SELECT.
#[tactic(auto, unfolding(crate::specs::Parsing::item_at))]
fn item(cursor: &mut Cursor) -> Result<Item, Unread>
    ensures read { GivesAt result cursor.new (item_at cursor.old) }
    ensures left { length cursor.new.tokens ≤ length cursor.old.tokens }
{
    let placed = cursor.take()?;
    match placed.token {
        Token::Symbol(Symbol::Count) => count_item(cursor),
        Token::Aggregate(aggregate) => column_item(cursor, aggregate),
        Token::Symbol(Symbol::TopK) => top_item(cursor),
        _ => Err(Unread { at: placed.at }),
    }
}

/// Whether a comma follows an item, and not FROM.
#[tactic(auto, unfolding(crate::specs::Parsing::more_at))]
fn more(cursor: &mut Cursor) -> Result<bool, Unread>
    ensures read { GivesAt result cursor.new (more_at cursor.old) }
    ensures left { OnOk result (length cursor.new.tokens < length cursor.old.tokens) }
{
    let (symbol, at) = cursor.symbol()?;
    match symbol {
        Symbol::Comma => Ok(true),
        Symbol::From => Ok(false),
        _ => Err(Unread { at }),
    }
}

/// An item, and whether another follows it.
#[tactic(auto, unfolding(crate::specs::Parsing::listed_at))]
fn listed_item(cursor: &mut Cursor) -> Result<(Item, bool), Unread>
    ensures read { GivesAt result cursor.new (listed_at cursor.old) }
    ensures left { OnOk result (length cursor.new.tokens < length cursor.old.tokens) }
{
    let item = item(cursor)?;
    let more = more(cursor)?;
    Ok((item, more))
}

/// The items, up to FROM.
pub(crate) fn items(alloc: Global, cursor: &mut Cursor) -> Result<Vec<Item>, ReadFault>
    ensures { Moves (Items []) cursor.old (λ v. Table v.items) cursor.new result }
{
    let mut items = Vec::new(alloc);
    loop {
        let (item, more) = listed_item(cursor)?;
        items.push(item)?;
        if !more {
            return Ok(items);
        }
    }
}
