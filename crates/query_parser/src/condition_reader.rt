//! The condition behind WHERE.
ghost use Rattle.std.specs.Prelude.{◌≡◌, ◌<◌, ◌≤◌, length, OnOk, IfOk};
ghost use Rattle.query_grammar.specs.Machine.{Found, TableEnd, Head};
ghost use Rattle.query_parser.specs.Reading.{Moves};
ghost use Rattle.query_parser.specs.Parsing.{GivesAt, Leaves, operand_at, equal_at, mark_at, greatest_at, least_at, named_at, inner_at, part_at, behind_at, end_at, turn_at, Leads, Turns, ending_state, opening_at};

use crate::cursor::Cursor;
use crate::fault::{ReadFault, Unread};
use crate::found::{Conditions, Ending};
use query_grammar::{Atom, Literal, Public, Symbol, Token};
use spl_values::Name;
use std::alloc::Global;

/// What a column is compared with: a literal, or none for a question mark. Where it stands is told
/// with it.
#[tactic(auto, unfolding(crate::specs::Parsing::operand_at))]
fn operand(cursor: &mut Cursor) -> Result<(Option<Literal>, u64), Unread>
    ensures read { GivesAt result cursor.new (operand_at cursor.old) }
    ensures left { length cursor.new.tokens ≤ length cursor.old.tokens }
{
    let placed = cursor.take()?;
    let at = placed.at;
    match placed.token {
        Token::Symbol(Symbol::Question) => Ok((None, at)),
        Token::Number(number) => Ok((Some(Literal::Number(number)), at)),
        Token::Text(text) => Ok((Some(Literal::Text(text)), at)),
        _ => Err(Unread { at }),
    }
}

/// What stands behind a name and its symbol of equality.
#[tactic(auto, unfolding(crate::specs::Parsing::equal_at))]
fn equality(cursor: &mut Cursor, found: &mut Conditions, name: Name) -> Result<(), ReadFault>
    ensures read { Leaves result found.new cursor.new (equal_at found.old name cursor.old) }
    ensures left { length cursor.new.tokens ≤ length cursor.old.tokens }
{
    let (value, at) = operand(cursor)?;
    match value {
        None if found.may_atom() => found.add_atom(Atom::Equal(name))?,
        Some(literal) if found.may_public() => found.add_public(Public::Equal(name, literal))?,
        _ => return Err(ReadFault::NoReading(at)),
    }
    Ok(())
}

/// The rest of a range of two question marks.
#[tactic(auto, unfolding(crate::specs::Parsing::mark_at))]
fn secret_range(cursor: &mut Cursor, found: &mut Conditions, name: Name) -> Result<(), ReadFault>
    ensures read { Leaves result found.new cursor.new (mark_at found.old name cursor.old) }
    ensures left { length cursor.new.tokens ≤ length cursor.old.tokens }
{
    cursor.expect(Symbol::And)?;
    cursor.expect(Symbol::Question)?;
    found.add_atom(Atom::Between(name))?;
    Ok(())
}

/// The rest of a public range, whose least value was read.
#[tactic(auto, unfolding(crate::specs::Parsing::greatest_at))]
fn public_range(
    cursor: &mut Cursor,
    found: &mut Conditions,
    name: Name,
    least: Literal,
) -> Result<(), ReadFault>
    ensures read { Leaves result found.new cursor.new (greatest_at found.old name least cursor.old) }
    ensures left { length cursor.new.tokens ≤ length cursor.old.tokens }
{
    cursor.expect(Symbol::And)?;
    match operand(cursor)? {
        (Some(greatest), _) => found.add_public(Public::Between(name, least, greatest))?,
        (None, at) => return Err(ReadFault::NoReading(at)),
    }
    Ok(())
}

/// What stands behind a name and BETWEEN.
#[tactic(auto, unfolding(crate::specs::Parsing::least_at))]
fn range(cursor: &mut Cursor, found: &mut Conditions, name: Name) -> Result<(), ReadFault>
    ensures read { Leaves result found.new cursor.new (least_at found.old name cursor.old) }
    ensures left { length cursor.new.tokens ≤ length cursor.old.tokens }
{
    let (value, at) = operand(cursor)?;
    match value {
        None if found.may_atom() => secret_range(cursor, found, name),
        Some(least) if found.may_public() => public_range(cursor, found, name, least),
        _ => Err(ReadFault::NoReading(at)),
    }
}

/// What stands behind a name.
#[tactic(auto, unfolding(crate::specs::Parsing::named_at))]
fn named(cursor: &mut Cursor, found: &mut Conditions, name: Name) -> Result<(), ReadFault>
    ensures read { Leaves result found.new cursor.new (named_at found.old name cursor.old) }
    ensures left { length cursor.new.tokens ≤ length cursor.old.tokens }
{
    let (symbol, at) = cursor.symbol()?;
    match symbol {
        Symbol::Equals => equality(cursor, found, name),
        Symbol::Between => range(cursor, found, name),
        _ => Err(ReadFault::NoReading(at)),
    }
}

/// A part behind an opening parenthesis.
#[tactic(auto, unfolding(crate::specs::Parsing::inner_at))]
fn inner(cursor: &mut Cursor, found: &mut Conditions) -> Result<(), ReadFault>
    ensures read { Leaves result found.new cursor.new (inner_at found.old cursor.old) }
    ensures left { length cursor.new.tokens ≤ length cursor.old.tokens }
{
    let name = cursor.name()?;
    named(cursor, found, name)
}

/// A part of a condition, with the parenthesis that opens before it.
#[tactic(auto, unfolding(crate::specs::Parsing::part_at))]
fn part(alloc: Global, cursor: &mut Cursor, found: &mut Conditions) -> Result<(), ReadFault>
    ensures read { Leaves result found.new cursor.new (part_at found.old cursor.old) }
    ensures some { OnOk result (length cursor.new.tokens < length cursor.old.tokens) }
    ensures left { length cursor.new.tokens ≤ length cursor.old.tokens }
{
    let placed = cursor.take()?;
    match placed.token {
        Token::Name(name) => named(cursor, found, name),
        Token::Symbol(Symbol::Open) if found.may_open() => {
            found.open(alloc);
            inner(cursor, found)
        }
        _ => Err(ReadFault::NoReading(placed.at)),
    }
}

/// What stands behind the part in parentheses.
#[tactic(auto, unfolding(crate::specs::Parsing::behind_at))]
fn behind(cursor: &mut Cursor) -> Result<Ending, Unread>
    ensures read { (found : Found) → Turns result found cursor.new (behind_at found cursor.old) }
    ensures left { length cursor.new.tokens ≤ length cursor.old.tokens }
{
    if cursor.is_over() {
        return Ok(Ending::Done);
    }
    let (symbol, at) = cursor.symbol()?;
    match symbol {
        Symbol::And => Ok(Ending::More),
        Symbol::Group => Ok(Ending::Group),
        Symbol::Semicolon => Ok(Ending::Done),
        _ => Err(Unread { at }),
    }
}

/// What stands behind a part.
#[tactic(auto, unfolding(crate::specs::Parsing::end_at))]
fn part_end(alloc: Global, cursor: &mut Cursor, found: &mut Conditions) -> Result<Ending, ReadFault>
    ensures read { Leads result found.new cursor.new (end_at found.old cursor.old) }
    ensures left { length cursor.new.tokens ≤ length cursor.old.tokens }
{
    if cursor.is_over() {
        return if found.may_end() {
            Ok(Ending::Done)
        } else {
            Err(ReadFault::NoReading(cursor.end()))
        };
    }
    let (symbol, at) = cursor.symbol()?;
    match symbol {
        Symbol::And if found.may_go_on() => Ok(Ending::More),
        Symbol::Or => match found.or_mode() {
            Some(mode) => {
                found.next_branch(alloc, mode)?;
                Ok(Ending::More)
            }
            None => Err(ReadFault::NoReading(at)),
        },
        Symbol::Close if found.may_close() => {
            found.close(alloc)?;
            Ok(behind(cursor)?)
        }
        Symbol::Group if found.may_end() => Ok(Ending::Group),
        Symbol::Semicolon if found.may_end() => Ok(Ending::Done),
        _ => Err(ReadFault::NoReading(at)),
    }
}

/// A part, and what stands behind it.
#[tactic(auto, unfolding(crate::specs::Parsing::turn_at))]
fn turn(alloc: Global, cursor: &mut Cursor, found: &mut Conditions) -> Result<Ending, ReadFault>
    ensures read { Leads result found.new cursor.new (turn_at found.old cursor.old) }
    ensures some { OnOk result (length cursor.new.tokens < length cursor.old.tokens) }
{
    part(alloc, cursor, found)?;
    part_end(alloc, cursor, found)
}

/// What stands behind the table's name: WHERE means that more follows.
#[tactic(auto, unfolding(crate::specs::Parsing::opening_at))]
fn opening(cursor: &mut Cursor) -> Result<Ending, Unread>
    ensures read { GivesAt result cursor.new (opening_at cursor.old) }
{
    if cursor.is_over() {
        return Ok(Ending::Done);
    }
    let (symbol, at) = cursor.symbol()?;
    match symbol {
        Symbol::Where => Ok(Ending::More),
        Symbol::Group => Ok(Ending::Group),
        Symbol::Semicolon => Ok(Ending::Done),
        _ => Err(Unread { at }),
    }
}

/// The condition, and what comes behind it.
pub(crate) fn condition(
    alloc: Global,
    cursor: &mut Cursor,
) -> Result<(Conditions, Ending), ReadFault>
    ensures moves { (h : Head) → Moves (TableEnd h) cursor.old (λ x. ending_state h x.0 x.1) cursor.new result }
    ensures ends { IfOk result (λ x. x.1 ≡ Ending.More → ⊥) }
{
    let mut found = Conditions::new(alloc);
    let mut ending = opening(cursor)?;
    while let Ending::More = ending {
        ending = turn(alloc, cursor, &mut found)?;
    }
    Ok((found, ending))
}
