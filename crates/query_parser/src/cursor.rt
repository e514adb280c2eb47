ghost use Rattle.std.specs.Prelude.{◌≡◌, ◌+◌, ◌≤◌, List, [], length, OnOk};
ghost use Rattle.query_parser.specs.Parsing.{GivesAt, Passes, same_symbol, take_at, any_symbol_at, symbol_at, name_at, number_at, no_more, nothing_at};

use crate::fault::Unread;
use query_grammar::{Placed, Symbol, Token};
use spl_values::Name;
use std::collections::VecDeque;
use std::marker::Model;

/// The tokens that are left of a text, and where it ends. Reading them takes no memory: a fault is always a place.
#[derive(Drop)]
pub(crate) struct Cursor {
    tokens: VecDeque<Placed>,
    end: u64,
}

impl Model for Cursor {
    ghost use Rattle.query_parser.specs.Reading.{Left};

    ghost Value = { Left };

    ghost view = { λ c. record { tokens = c.tokens.items; end = c.end } };
}

impl Cursor {
    /// A cursor before these tokens of a text that ends at `end`.
    pub(crate) fn new(tokens: VecDeque<Placed>, end: u64) -> Cursor
        ensures tokens { result.tokens ≡ tokens.items }
        ensures end { result.end ≡ end }
    {
        Cursor { tokens, end }
    }

    /// The next token; at the end a fault.
    #[tactic(auto, unfolding(crate::specs::Parsing::take_at))]
    pub(crate) fn take(&mut self) -> Result<Placed, Unread>
        ensures read { GivesAt result self.new (take_at self.old) }
        ensures one { OnOk result (length self.new.tokens + 1 ≡ length self.old.tokens) }
        ensures left { length self.new.tokens ≤ length self.old.tokens }
    {
        match self.tokens.pop_front() {
            Some(placed) => Ok(placed),
            None => Err(Unread { at: self.end }),
        }
    }

    pub(crate) fn is_over(&self) -> bool
        ensures { result ≡ no_more self.now.tokens }
    {
        self.tokens.is_empty()
    }

    /// Where the text ends.
    pub(crate) fn end(&self) -> u64
        ensures { result ≡ self.now.end }
    {
        self.end
    }

    /// Takes nothing, where nothing is left.
    #[tactic(auto, unfolding(crate::specs::Parsing::nothing_at))]
    pub(crate) fn over(&mut self) -> Result<(), Unread>
        ensures read { Passes result self.new (nothing_at self.old) }
        ensures left { length self.new.tokens ≤ length self.old.tokens }
    {
        if self.is_over() {
            return Ok(());
        }
        let placed = self.take()?;
        Err(Unread { at: placed.at })
    }

    /// Takes a symbol, and tells where it stands.
    #[tactic(auto, unfolding(crate::specs::Parsing::any_symbol_at))]
    pub(crate) fn symbol(&mut self) -> Result<(Symbol, u64), Unread>
        ensures read { GivesAt result self.new (any_symbol_at self.old) }
        ensures one { OnOk result (length self.new.tokens + 1 ≡ length self.old.tokens) }
        ensures left { length self.new.tokens ≤ length self.old.tokens }
    {
        let placed = self.take()?;
        let at = placed.at;
        match placed.token {
            Token::Symbol(symbol) => Ok((symbol, at)),
            _ => Err(Unread { at }),
        }
    }

    /// Takes this symbol.
    #[tactic(auto, unfolding(crate::specs::Parsing::symbol_at))]
    pub(crate) fn expect(&mut self, wanted: Symbol) -> Result<(), Unread>
        ensures read { Passes result self.new (symbol_at wanted self.old) }
        ensures left { length self.new.tokens ≤ length self.old.tokens }
    {
        let (symbol, at) = self.symbol()?;
        if is_same(wanted, symbol) {
            Ok(())
        } else {
            Err(Unread { at })
        }
    }

    /// Takes a name.
    #[tactic(auto, unfolding(crate::specs::Parsing::name_at))]
    pub(crate) fn name(&mut self) -> Result<Name, Unread>
        ensures read { GivesAt result self.new (name_at self.old) }
        ensures left { length self.new.tokens ≤ length self.old.tokens }
    {
        let placed = self.take()?;
        match placed.token {
            Token::Name(name) => Ok(name),
            _ => Err(Unread { at: placed.at }),
        }
    }

    /// Takes a number.
    #[tactic(auto, unfolding(crate::specs::Parsing::number_at))]
    pub(crate) fn number(&mut self) -> Result<u64, Unread>
        ensures read { GivesAt result self.new (number_at self.old) }
        ensures left { length self.new.tokens ≤ length self.old.tokens }
    {
        let placed = self.take()?;
        match placed.token {
            Token::Number(number) => Ok(number),
            _ => Err(Unread { at: placed.at }),
        }
    }
}

fn is_same(wanted: Symbol, symbol: Symbol) -> bool
    ensures { result ≡ same_symbol wanted symbol }
{
    wanted == symbol
}
