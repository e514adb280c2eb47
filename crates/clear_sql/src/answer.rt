//! Answers of queries.
ghost use Rattle.std.specs.Prelude.{◌≡◌};

use spl_values::Value;
use std::marker::Model;

/// One of the best rows: its number, counted from 0, and its values in the sort column and the shown one.
#[derive(Clone, Copy, Debug)]
pub struct TopRow {
    pub row: u32,
    pub sort: Value,
    pub show: Value,
}

/// The best rows, best first, seen as a list.
#[derive(Debug, Drop)]
pub struct TopRows {
    rows: Vec<TopRow>,
}

impl Model for TopRows {
    ghost use Rattle.std.specs.Prelude.{List};
    ghost use Rattle.clear_sql.specs.declared.answer.TopRow.{TopRow};

    ghost Value = { List TopRow };

    ghost view = { λ list. list.rows.items };
}

impl TopRows {
    /// The list of these rows.
    pub fn from_vec(rows: Vec<TopRow>) -> TopRows
        ensures { result ≡ rows.items }
    {
        TopRows { rows }
    }

    /// The rows, best first.
    pub fn as_slice(&self) -> &[TopRow]
        ensures { result.now ≡ self.now }
    {
        self.rows.as_slice()
    }
}

/// What one item of a query gives.
#[derive(Debug, Drop)]
pub enum Outcome {
    /// How many rows there are.
    Count(u64),
    /// The sum of a column.
    Sum(u64),
    /// The sum of a column and the number of rows, as a fraction that isn't reduced.
    Avg(u64, u64),
    /// The greatest or the least value of a column.
    Best(Value),
    /// There is no row to sum, to average or to pick from.
    Null,
    /// The best rows.
    Top(TopRows),
}

/// What the items of a query give, in their order, seen as a list.
#[derive(Debug, Drop)]
pub struct Outcomes {
    outcomes: Vec<Outcome>,
}

impl Model for Outcomes {
    ghost use Rattle.std.specs.Prelude.{List};
    ghost use Rattle.clear_sql.specs.declared.answer.Outcome.{Outcome};

    ghost Value = { List Outcome };

    ghost view = { λ list. list.outcomes.items };
}

impl Outcomes {
    /// The list of these outcomes.
    pub fn from_vec(outcomes: Vec<Outcome>) -> Outcomes
        ensures { result ≡ outcomes.items }
    {
        Outcomes { outcomes }
    }

    /// The outcomes, in the order of the items.
    pub fn as_slice(&self) -> &[Outcome]
        ensures { result.now ≡ self.now }
    {
        self.outcomes.as_slice()
    }
}

/// The outcomes over the rows of one label, or over all rows where no column groups them.
#[derive(Debug, Drop)]
pub struct Group {
    pub label: Option<u32>,
    pub results: Outcomes,
}

/// Groups, in the order of their labels, seen as a list.
#[derive(Debug, Drop)]
pub struct Groups {
    groups: Vec<Group>,
}

impl Model for Groups {
    ghost use Rattle.std.specs.Prelude.{List};
    ghost use Rattle.clear_sql.specs.declared.answer.Group.{Group};

    ghost Value = { List Group };

    ghost view = { λ list. list.groups.items };
}

impl Groups {
    /// The list of these groups.
    pub fn from_vec(groups: Vec<Group>) -> Groups
        ensures { result ≡ groups.items }
    {
        Groups { groups }
    }

    /// The groups, in the order of their labels.
    pub fn as_slice(&self) -> &[Group]
        ensures { result.now ≡ self.now }
    {
        self.groups.as_slice()
    }
}

/// The answer of a query: one group without GROUP BY, and else one for each label that has a row.
#[derive(Debug, Drop)]
pub struct Answer {
    pub groups: Groups,
}
