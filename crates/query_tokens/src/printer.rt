//! The text of tokens, token by token.
ghost use Rattle.std.specs.Prelude.{◌≡◌, [], ◌++◌, IfOk};
ghost use Rattle.query_tokens.specs.Printing.{symbol_text as text_of_symbol, aggregate_text as text_of_aggregate, space as space_of, doubled as doubled_of, space_behind, put, begun};
ghost use Rattle.query_grammar.specs.declared.token.Token.TheVariants.{Symbol as SymbolToken, Aggregate as AggregateToken, Name as NameToken, Number as NumberToken, Text as TextToken};

use query_grammar::{Aggregate, Symbol};
use spl_values::{Bytes, Name};
use std::alloc::{AllocError, Global};
use std::marker::Model;

/// What stands last in a text that is written: what space comes next depends on it.
#[derive(Clone, Copy, Debug)]
pub enum Last {
    /// Nothing was written.
    Begin,
    /// An opening parenthesis.
    Opening,
    /// A word whose parentheses follow it at once.
    Function,
    /// Any other token.
    Other,
}

/// A text that is written, token by token. After an error it may hold a part of the token.
#[derive(Drop)]
pub struct Printer {
    alloc: Global,
    text: Vec<u8>,
    last: Last,
}

impl Model for Printer {
    ghost use Rattle.query_tokens.specs.Printing.{Written};

    ghost Value = { Written };

    ghost view = { λ printer. record { text = printer.text.items; last = printer.last } };
}

fn symbol_text(symbol: Symbol) -> &'static [u8]
    ensures { result.now ≡ text_of_symbol symbol }
{
    match symbol {
        Symbol::Select => b"SELECT",
        Symbol::From => b"FROM",
        Symbol::Where => b"WHERE",
        Symbol::And => b"AND",
        Symbol::Or => b"OR",
        Symbol::Between => b"BETWEEN",
        Symbol::Group => b"GROUP",
        Symbol::By => b"BY",
        Symbol::Count => b"COUNT",
        Symbol::TopK => b"TOPK",
        Symbol::Open => b"(",
        Symbol::Close => b")",
        Symbol::Comma => b",",
        Symbol::Star => b"*",
        Symbol::Equals => b"=",
        Symbol::Question => b"?",
        Symbol::Semicolon => b";",
    }
}

fn aggregate_text(aggregate: Aggregate) -> &'static [u8]
    ensures { result.now ≡ text_of_aggregate aggregate }
{
    match aggregate {
        Aggregate::Sum => b"SUM",
        Aggregate::Avg => b"AVG",
        Aggregate::Max => b"MAX",
        Aggregate::Min => b"MIN",
    }
}

impl Printer {
    /// A text with nothing in it.
    pub fn new(alloc: Global) -> Printer
        ensures { result ≡ begun }
    {
        Printer {
            alloc,
            text: Vec::new(alloc),
            last: Last::Begin,
        }
    }

    /// The text that was written.
    pub fn into_vec(self) -> Vec<u8>
        ensures { result.items ≡ self.text }
    {
        let Printer { text, .. } = self;
        text
    }

    /// Writes a reserved word or a sign.
    pub fn symbol(&mut self, symbol: Symbol) -> Result<(), AllocError>
        ensures { IfOk result (λ _. self.new ≡ put self.old (SymbolToken symbol)) }
    {
        let spaced = match self.last {
            Last::Begin => false,
            Last::Opening => false,
            Last::Function => !matches!(symbol, Symbol::Close | Symbol::Comma | Symbol::Open),
            Last::Other => !matches!(symbol, Symbol::Close | Symbol::Comma),
        };
        if spaced {
            self.text.push(b' ')?;
        }
        self.text.extend_from_slice(symbol_text(symbol))?;
        self.last = match symbol {
            Symbol::Open => Last::Opening,
            Symbol::Count => Last::Function,
            Symbol::TopK => Last::Function,
            _ => Last::Other,
        };
        Ok(())
    }

    /// The space before a token that is no sign.
    fn space(&mut self) -> Result<(), AllocError>
        ensures { IfOk result (λ _. self.new ≡ record { text = self.old.text ++ space_of (space_behind self.old.last); last = self.old.last }) }
    {
        match self.last {
            Last::Begin => Ok(()),
            Last::Opening => Ok(()),
            _ => {
                self.text.push(b' ')?;
                Ok(())
            }
        }
    }

    /// Writes a function of one column.
    pub fn aggregate(&mut self, aggregate: Aggregate) -> Result<(), AllocError>
        ensures { IfOk result (λ _. self.new ≡ put self.old (AggregateToken aggregate)) }
    {
        self.space()?;
        self.text.extend_from_slice(aggregate_text(aggregate))?;
        self.last = Last::Function;
        Ok(())
    }

    /// Writes a name.
    pub fn name(&mut self, name: &Name) -> Result<(), AllocError>
        ensures { IfOk result (λ _. self.new ≡ put self.old (NameToken name.now)) }
    {
        self.space()?;
        self.text.extend_from_slice(name.as_str().as_bytes())?;
        self.last = Last::Other;
        Ok(())
    }

    /// Writes a number in decimal, without leading zeros.
    pub fn number(&mut self, number: u64) -> Result<(), AllocError>
        ensures { IfOk result (λ _. self.new ≡ put self.old (NumberToken number)) }
    {
        let digits = number.to_string(self.alloc)?;
        self.space()?;
        self.text.extend_from_slice(digits.as_bytes())?;
        self.last = Last::Other;
        Ok(())
    }

    /// Writes a text between quotes, each quote in it twice.
    pub fn text(&mut self, text: &Bytes) -> Result<(), AllocError>
        ensures { IfOk result (λ _. self.new ≡ put self.old (TextToken text.now)) }
    {
        self.space()?;
        self.text.push(b'\'')?;
        double(&mut self.text, text.as_slice())?;
        self.text.push(b'\'')?;
        self.last = Last::Other;
        Ok(())
    }
}

/// Appends a text, each quote twice.
fn double(out: &mut Vec<u8>, text: &[u8]) -> Result<(), AllocError>
    ensures { IfOk result (λ _. out.new.items ≡ out.old.items ++ doubled_of text.now) }
{
    for b in text {
        if *b == b'\'' {
            out.push(b'\'')?;
        }
        out.push(*b)?;
    }
    Ok(())
}
