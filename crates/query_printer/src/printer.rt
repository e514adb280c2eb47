//! The canonical text of a query.
ghost use Rattle.std.specs.Prelude.{◌≡◌, ◌∷◌, [], ◌++◌, List, IfOk, map, true};
ghost use Rattle.query_tokens.specs.Printing.{written, put, canonical_text};
ghost use Rattle.query_tokens.specs.Tokens.{tokens_in};
ghost use Rattle.query_grammar.specs.Faults.{tokens_of};
ghost use Rattle.query_grammar.specs.Canonical.{some_parts, branch_parts, canonical};
ghost use Rattle.query_grammar.specs.Grammar.{item_text, literal_text, public_text, atom_text, branch_text, where_text, group_text, joined, Part, Shown, Bare, Reads};
ghost use Rattle.query_grammar.specs.declared.token.Symbol.TheVariants.{Open as OpenSymbol, Close as CloseSymbol, Comma as CommaSymbol, Or as OrSymbol};
ghost use Rattle.query_grammar.specs.declared.token.Token.TheVariants.{Symbol as SymbolToken, Aggregate as AggregateToken, Name as NameToken};
ghost use Rattle.query_printer.specs.Leading.{lead, led};

use crate::query::Query;
use query_grammar::{Aggregate, Atom, Atoms, Item, Literal, Public, Symbol};
use query_tokens::Printer;
use spl_values::{Bytes, Name};
use std::alloc::{AllocError, Global};

fn put_literal(printer: &mut Printer, literal: &Literal) -> Result<(), AllocError>
    ensures { IfOk result (λ _. printer.new ≡ put printer.old (literal_text literal.now)) }
{
    match literal {
        Literal::Number(number) => printer.number(*number),
        Literal::Text(text) => printer.text(text),
    }
}

/// Writes a function of one column, with its column.
fn put_aggregate(printer: &mut Printer, aggregate: Aggregate, name: &Name) -> Result<(), AllocError>
    ensures { IfOk result (λ _. printer.new ≡ written printer.old (AggregateToken aggregate ∷ SymbolToken OpenSymbol ∷ NameToken name.now ∷ SymbolToken CloseSymbol ∷ [])) }
{
    printer.aggregate(aggregate)?;
    printer.symbol(Symbol::Open)?;
    printer.name(name)?;
    printer.symbol(Symbol::Close)
}

fn put_item(printer: &mut Printer, item: &Item) -> Result<(), AllocError>
    ensures { IfOk result (λ _. printer.new ≡ written printer.old (item_text item.now)) }
{
    match item {
        Item::Count => {
            printer.symbol(Symbol::Count)?;
            printer.symbol(Symbol::Open)?;
            printer.symbol(Symbol::Star)?;
            printer.symbol(Symbol::Close)
        }
        Item::Sum(name) => put_aggregate(printer, Aggregate::Sum, name),
        Item::Avg(name) => put_aggregate(printer, Aggregate::Avg, name),
        Item::Max(name) => put_aggregate(printer, Aggregate::Max, name),
        Item::Min(name) => put_aggregate(printer, Aggregate::Min, name),
        Item::TopK(count, sort, show) => {
            printer.symbol(Symbol::TopK)?;
            printer.symbol(Symbol::Open)?;
            printer.number(*count)?;
            printer.symbol(Symbol::Comma)?;
            printer.name(sort)?;
            printer.symbol(Symbol::Comma)?;
            printer.name(show)?;
            printer.symbol(Symbol::Close)
        }
    }
}

fn put_items(printer: &mut Printer, items: &[Item]) -> Result<(), AllocError>
    ensures { IfOk result (λ _. printer.new ≡ written printer.old (joined (SymbolToken CommaSymbol) item_text items.now)) }
{
    let mut first = true;
    for item in items {
        if !first {
            printer.symbol(Symbol::Comma)?;
        }
        put_item(printer, item)?;
        first = false;
    }
    Ok(())
}

fn put_public(printer: &mut Printer, public: &Public) -> Result<(), AllocError>
    ensures { IfOk result (λ _. printer.new ≡ written printer.old (public_text public.now)) }
{
    match public {
        Public::Equal(name, value) => {
            printer.name(name)?;
            printer.symbol(Symbol::Equals)?;
            put_literal(printer, value)
        }
        Public::Between(name, least, greatest) => {
            printer.name(name)?;
            printer.symbol(Symbol::Between)?;
            put_literal(printer, least)?;
            printer.symbol(Symbol::And)?;
            put_literal(printer, greatest)
        }
    }
}

fn put_atom(printer: &mut Printer, atom: &Atom) -> Result<(), AllocError>
    ensures { IfOk result (λ _. printer.new ≡ written printer.old (atom_text atom.now)) }
{
    match atom {
        Atom::Equal(name) => {
            printer.name(name)?;
            printer.symbol(Symbol::Equals)?;
            printer.symbol(Symbol::Question)
        }
        Atom::Between(name) => {
            printer.name(name)?;
            printer.symbol(Symbol::Between)?;
            printer.symbol(Symbol::Question)?;
            printer.symbol(Symbol::And)?;
            printer.symbol(Symbol::Question)
        }
    }
}

fn put_branch(printer: &mut Printer, atoms: &[Atom]) -> Result<(), AllocError>
    ensures { IfOk result (λ _. printer.new ≡ written printer.old (branch_text atoms.now)) }
{
    let mut first = true;
    for atom in atoms {
        if !first {
            printer.symbol(Symbol::And)?;
        }
        put_atom(printer, atom)?;
        first = false;
    }
    Ok(())
}

/// Writes branches with OR between them.
fn put_either(printer: &mut Printer, branches: &[Atoms]) -> Result<(), AllocError>
    ensures { IfOk result (λ _. printer.new ≡ written printer.old (joined (SymbolToken OrSymbol) branch_text branches.now)) }
{
    let mut first = true;
    for branch in branches {
        if !first {
            printer.symbol(Symbol::Or)?;
        }
        put_branch(printer, branch.as_slice())?;
        first = false;
    }
    Ok(())
}

/// Writes what stands before a part: WHERE before the first, AND before another.
fn put_lead(printer: &mut Printer, first: bool) -> Result<(), AllocError>
    ensures { IfOk result (λ _. printer.new ≡ put printer.old (lead first)) }
{
    printer.symbol(if first { Symbol::Where } else { Symbol::And })
}

/// Writes the public conditions, and tells whether the next part is the first.
fn put_publics(printer: &mut Printer, publics: &[Public]) -> Result<bool, AllocError>
    ensures { IfOk result (λ first. (rest : List Part) → written printer.new (led first rest) ≡ written printer.old (led true (map Shown publics.now ++ rest))) }
{
    let mut first = true;
    for public in publics {
        put_lead(printer, first)?;
        put_public(printer, public)?;
        first = false;
    }
    Ok(first)
}

/// Writes the only branch, as its atoms.
fn put_bare(printer: &mut Printer, first: bool, atoms: &[Atom]) -> Result<(), AllocError>
    ensures { IfOk result (λ _. printer.new ≡ written printer.old (led first (map Bare atoms.now))) }
{
    let mut next = first;
    for atom in atoms {
        put_lead(printer, next)?;
        put_atom(printer, atom)?;
        next = false;
    }
    Ok(())
}

/// Writes the branches: one as its atoms, several in parentheses.
fn put_branches(printer: &mut Printer, first: bool, branches: &[Atoms]) -> Result<(), AllocError>
    ensures { IfOk result (λ _. printer.new ≡ written printer.old (led first (branch_parts branches.now))) }
{
    match branches {
        [] => Ok(()),
        [only] => put_bare(printer, first, only.as_slice()),
        [_, _, ..] => {
            put_lead(printer, first)?;
            printer.symbol(Symbol::Open)?;
            put_either(printer, branches)?;
            printer.symbol(Symbol::Close)
        }
    }
}

/// Writes the condition with WHERE, where there is one.
fn put_condition(
    printer: &mut Printer,
    publics: &[Public],
    branches: &[Atoms],
) -> Result<(), AllocError>
    ensures { IfOk result (λ _. printer.new ≡ written printer.old (where_text (some_parts (map Shown publics.now ++ branch_parts branches.now)))) }
{
    let first = put_publics(printer, publics)?;
    put_branches(printer, first, branches)
}

fn put_group(printer: &mut Printer, group: &Option<Name>) -> Result<(), AllocError>
    ensures { IfOk result (λ _. printer.new ≡ written printer.old (group_text group.now)) }
{
    match group {
        None => Ok(()),
        Some(name) => {
            printer.symbol(Symbol::Group)?;
            printer.symbol(Symbol::By)?;
            printer.name(name)
        }
    }
}

fn put_query(printer: &mut Printer, query: &Query) -> Result<(), AllocError>
    ensures { IfOk result (λ _. printer.new ≡ written printer.old (canonical query.now)) }
{
    printer.symbol(Symbol::Select)?;
    put_items(printer, query.items.as_slice())?;
    printer.symbol(Symbol::From)?;
    printer.name(&query.table)?;
    put_condition(printer, query.public.as_slice(), query.branches.as_slice())?;
    put_group(printer, &query.group)
}

/// The canonical text of a query.
pub fn print_query(alloc: Global, query: &Query) -> Result<Bytes, AllocError>
    ensures text { IfOk result (λ text. text ≡ canonical_text query.now) }
    // Reading that text gives the query.
    ensures reads { IfOk result (λ text. Reads (tokens_of (tokens_in text)) query.now) }
{
    query.facts();
    let mut printer = Printer::new(alloc);
    put_query(&mut printer, query)?;
    Ok(Bytes::from_vec(printer.into_vec()))
}
