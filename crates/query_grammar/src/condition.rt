use spl_values::{Bytes, Name};

/// A value that a query's text states.
#[derive(Clone, Debug, Drop)]
pub enum Literal {
    Number(u64),
    /// The bytes of a text, without its quotes, a doubled quote once.
    Text(Bytes),
}

/// A condition on a column whose values stand in the query's text.
#[derive(Clone, Debug, Drop)]
pub enum Public {
    /// The column has this value.
    Equal(Name, Literal),
    /// The column's value is at least the first and at most the second.
    Between(Name, Literal, Literal),
}

/// A condition on a column whose values are secret parameters.
#[derive(Clone, Debug, Drop)]
pub enum Atom {
    /// The column has the value of one parameter.
    Equal(Name),
    /// The column's value is between those of two parameters.
    Between(Name),
}
