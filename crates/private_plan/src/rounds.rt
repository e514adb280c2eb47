//! The trees of a round.
ghost use Rattle.std.specs.Prelude.{◌≡◌, ◌≤◌};
ghost use Rattle.private_plan.specs.Lengths.{trees_in as trees_of_round};
ghost use Rattle.private_plan.specs.Rounds.{first_tree as tree_of_first};

use crate::plans::Plan;
use spl_words::KeySpec;

/// The trees of a plan's round, in the order of their keys.
pub fn trees_in(plan: &Plan, round: u32) -> &[KeySpec]
    ensures { result.now ≡ trees_of_round plan.now round }
{
    if round == 2 {
        plan.second.as_slice()
    } else {
        plan.first.as_slice()
    }
}

/// The number of the first tree of a plan's round: those of the second round follow on.
pub fn first_tree(plan: &Plan, round: u32) -> u32
    requires { tree_of_first plan.now round ≤ 512 }
    ensures { result ≡ tree_of_first plan.now round }
{
    if round == 2 {
        plan.first.as_slice().len() as u32
    } else {
        0
    }
}
