use spl_values::{Bytes, Name};

/// The four functions of one column.
#[derive(Clone, Copy, Debug)]
pub enum Aggregate {
    Sum,
    Avg,
    Max,
    Min,
}

/// The other reserved words, and the signs.
#[derive(Clone, Copy, Debug, PartialEq)]
pub enum Symbol {
    Select,
    From,
    Where,
    And,
    Or,
    Between,
    Group,
    By,
    Count,
    TopK,
    Open,
    Close,
    Comma,
    Star,
    Equals,
    Question,
    Semicolon,
}

/// A token of a query's text.
#[derive(Debug, Drop)]
pub enum Token {
    Symbol(Symbol),
    Aggregate(Aggregate),
    Name(Name),
    Number(u64),
    Text(Bytes),
    /// A place where the bytes form no token.
    Nothing,
}

/// A token, and the offset of its first byte in the text.
#[derive(Debug, Drop)]
pub struct Placed {
    pub token: Token,
    pub at: u64,
}
