//! A query from its text.
ghost use Rattle.std.specs.Prelude.{◌≡◌, length, IfOk, IfErr, OnOk};
ghost use Rattle.query_grammar.specs.Machine.{Start};
ghost use Rattle.query_grammar.specs.Queries.{QueryParts};
ghost use Rattle.query_grammar.specs.Grammar.{Reads};
ghost use Rattle.query_grammar.specs.Faults.{tokens_of};
ghost use Rattle.query_tokens.specs.Tokens.{tokens_in};
ghost use Rattle.query_parser.specs.Reading.{Ends, IsDrafted, IsStopOf, IsRead, IsFaultOf, drafted};
ghost use Rattle.query_parser.specs.Parsing.{GivesAt, Passes, semicolon_at, group_at, closing_at};

use crate::condition_reader::condition;
use crate::cursor::Cursor;
use crate::fault::{QueryFault, ReadFault, Unread};
use crate::found::Ending;
use crate::item_reader::items;
use query_grammar::{Branches, Items, Placed, Publics, Symbol};
use query_printer::Query;
use query_tokens::tokens;
use spl_values::Name;
use std::alloc::Global;
use std::collections::VecDeque;

/// The semicolon, which may be absent.
#[tactic(auto, unfolding(crate::specs::Parsing::semicolon_at))]
fn semicolon(cursor: &mut Cursor) -> Result<(), Unread>
    ensures read { Passes result cursor.new (semicolon_at cursor.old) }
{
    if cursor.is_over() {
        return Ok(());
    }
    let (symbol, at) = cursor.symbol()?;
    match symbol {
        Symbol::Semicolon => Ok(()),
        _ => Err(Unread { at }),
    }
}

/// The name of a group, and the end.
#[tactic(auto, unfolding(crate::specs::Parsing::group_at))]
fn group(cursor: &mut Cursor) -> Result<Name, Unread>
    ensures read { GivesAt result cursor.new (group_at cursor.old) }
{
    cursor.expect(Symbol::By)?;
    let name = cursor.name()?;
    semicolon(cursor)?;
    cursor.over()?;
    Ok(name)
}

/// The group and the end, behind all conditions.
#[tactic(auto, unfolding(crate::specs::Parsing::closing_at))]
fn closing(cursor: &mut Cursor, ending: Ending) -> Result<Option<Name>, Unread>
    ensures read { GivesAt result cursor.new (closing_at ending cursor.old) }
{
    match ending {
        Ending::Group => Ok(Some(group(cursor)?)),
        Ending::More | Ending::Done => {
            cursor.over()?;
            Ok(None)
        }
    }
}

/// What a query's text states, before it is known to be a query.
#[derive(Drop)]
pub(crate) struct Draft {
    pub(crate) items: Items,
    pub(crate) table: Name,
    pub(crate) public: Publics,
    pub(crate) branches: Branches,
    pub(crate) group: Option<Name>,
}

/// The query that the tokens are, or the place of the first that no query goes on with.
fn read(alloc: Global, cursor: &mut Cursor) -> Result<Draft, ReadFault>
    ensures { Ends Start cursor.old drafted result }
{
    cursor.expect(Symbol::Select)?;
    let items = items(alloc, cursor)?;
    let table = cursor.name()?;
    let (conditions, ending) = condition(alloc, cursor)?;
    let group = closing(cursor, ending)?;
    let (public, branches) = conditions.into_parts()?;
    Ok(Draft {
        items: Items::from_vec(items),
        table,
        public,
        branches,
        group,
    })
}

/// The query that the tokens of a text are. A fault is at the first token that no query goes on
/// with.
fn read_tokens(alloc: Global, tokens: VecDeque<Placed>, end: u64) -> Result<Draft, ReadFault>
    ensures reads { IfOk result (λ d. Reads (tokens_of tokens.items) (drafted d)) }
    ensures only { (q : QueryParts) → Reads (tokens_of tokens.items) q → IsDrafted q result }
    ensures fault { IfErr result (λ e. IsStopOf e tokens.items end) }
{
    let mut cursor = Cursor::new(tokens, end);
    read(alloc, &mut cursor)
}

/// The draft of the query that a text is.
fn read_draft(alloc: Global, text: &str) -> Result<Draft, ReadFault>
    ensures reads { IfOk result (λ d. Reads (tokens_of (tokens_in text.now)) (drafted d)) }
    ensures only { (q : QueryParts) → Reads (tokens_of (tokens_in text.now)) q → IsDrafted q result }
    ensures fault { IfErr result (λ e. IsStopOf e (tokens_in text.now) (length text.now)) }
{
    let list = tokens(alloc, text.as_bytes())?;
    read_tokens(alloc, list, text.len() as u64)
}

/// The query that a text is.
///
/// # Errors
///
/// `NoReading` with the offset of the first token that no query goes on with, or with the text's
/// length where the text ends too early; `OutOfMemory`. No other fault is answered.
pub fn read_query(alloc: Global, text: &str) -> Result<Query, QueryFault>
    // What is read is what the text's tokens spell.
    ensures reads { IfOk result (λ q. Reads (tokens_of (tokens_in text.now)) q) }
    // Where they spell a query, it is read, unless memory runs out.
    ensures only { (q : QueryParts) → Reads (tokens_of (tokens_in text.now)) q → IsRead q result }
    // A fault is where no query goes on with the text.
    ensures fault { IfErr result (λ e. IsFaultOf e (tokens_in text.now) (length text.now)) }
{
    match read_draft(alloc, text) {
        Ok(draft) => Ok(Query {
            items: draft.items,
            table: draft.table,
            public: draft.public,
            branches: draft.branches,
            group: draft.group,
        }),
        Err(ReadFault::NoReading(at)) => Err(QueryFault::NoReading(at)),
        Err(ReadFault::OutOfMemory) => Err(QueryFault::OutOfMemory),
    }
}
