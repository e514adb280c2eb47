//! What a plan says.
ghost use Rattle.std.specs.Prelude.{◌≡◌};
ghost use Rattle.private_plan.specs.Plans.{is_built as built};

use spl_words::KeySpec;
use std::marker::Model;

/// How a query is answered.
#[derive(Clone, Copy, Debug, PartialEq, Eq)]
pub enum PlanKind {
    /// One cell comes back: the sum of the cells of the rows that match.
    Sum,
    /// One cell for each branch of equalities.
    Point,
    /// One cell for each range of an aligned cover of a narrow range.
    Aligned,
    /// Two rounds: positions of the rows first, then cells over positions.
    Position,
}

/// Whether plans of that kind are answered so far.
pub fn is_built(kind: PlanKind) -> bool
    ensures { result ≡ built kind }
{
    match kind {
        PlanKind::Sum | PlanKind::Point | PlanKind::Aligned => true,
        PlanKind::Position => false,
    }
}

/// Trees, in the order of their keys.
#[derive(Debug, Drop)]
pub struct Specs {
    specs: Vec<KeySpec>,
}

impl Model for Specs {
    ghost use Rattle.std.specs.Prelude.{List};
    ghost use Rattle.spl_words.specs.declared.secret.KeySpec.{KeySpec};

    ghost Value = { List KeySpec };

    ghost view = { λ list. list.specs.items };
}

impl Specs {
    /// The list of these trees.
    pub fn from_vec(specs: Vec<KeySpec>) -> Specs
        ensures { result ≡ specs.items }
    {
        Specs { specs }
    }

    /// The trees, in order.
    pub fn as_slice(&self) -> &[KeySpec]
        ensures { result.now ≡ self.now }
    {
        self.specs.as_slice()
    }
}

/// Which trees a query asks for in each of its rounds, and how many words come back. It is public:
/// it follows from the query's text, the columns and the number of rows.
#[derive(Debug, Drop)]
pub struct Plan {
    pub kind: PlanKind,
    /// 1, or 2 under `Position`.
    pub rounds: u32,
    pub first: Specs,
    /// Empty where there is one round.
    pub second: Specs,
    pub first_words: u32,
    /// 0 where there is one round.
    pub second_words: u32,
}
