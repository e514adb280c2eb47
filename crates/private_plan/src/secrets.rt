//! The secrets of a round's trees.
ghost use Rattle.std.specs.Prelude.{◌≡◌, ◌≤◌, [], length, Ok, Err, IfOk};
ghost use Rattle.spl_words.specs.Results.{Gives};
ghost use Rattle.query_reader.specs.Accepted.{IsCheckedFor};
ghost use Rattle.query_reader.specs.Params.{AreParamsFor};
ghost use Rattle.private_plan.specs.declared.secrets.SecretFault.TheVariants as fault;
ghost use Rattle.private_plan.specs.Plans.{plan_of};
ghost use Rattle.private_plan.specs.Counts.{counts_taken, secrets_of};
ghost use Rattle.private_plan.specs.Rounds.{first_round, second_secrets as secrets_of_second, secrets_in};

use crate::branches::slots;
use crate::layout::{position_bits, sizes_of};
use crate::plans::Plan;
use crate::positions::check_counts;
use crate::slot_secrets::{positions_secrets, slots_secrets};
use query_reader::{Checked, Params};
use spl_values::Shape;
use spl_words::TreeSecret;
use std::alloc::{AllocError, Global};
use std::marker::Model;

/// Secrets of trees, in the order of their keys.
#[derive(Debug, Drop)]
pub struct Secrets {
    secrets: Vec<TreeSecret>,
}

impl Model for Secrets {
    ghost use Rattle.std.specs.Prelude.{List};
    ghost use Rattle.spl_words.specs.Secrets.{Secret};

    ghost Value = { List Secret };

    ghost view = { λ list. list.secrets.items };
}

impl Secrets {
    /// The list of these secrets.
    pub fn from_vec(secrets: Vec<TreeSecret>) -> Secrets
        ensures { result ≡ secrets.items }
    {
        Secrets { secrets }
    }

    /// The secrets, in order.
    pub fn as_slice(&self) -> &[TreeSecret]
        ensures { result.now ≡ self.now }
    {
        self.secrets.as_slice()
    }
}

/// Why a round has no secrets.
#[derive(Debug, Drop)]
pub enum SecretFault {
    /// A count of the first round that can't be: its place, the count, and what it may be at most, or
    /// at least where it is the second of a slot.
    BadCount(u32, u64, u64),
    OutOfMemory,
}

impl From<AllocError> for SecretFault {
    ghost from_gives = { λ _ e. e ≡ fault.OutOfMemory };

    fn from(_e: AllocError) -> SecretFault {
        SecretFault::OutOfMemory
    }
}

/// The secrets of the trees of a first round.
fn first_secrets(
    alloc: Global,
    checked: &Checked,
    shape: &Shape,
    params: &Params,
) -> Result<Vec<TreeSecret>, AllocError>
    requires accepted { IsCheckedFor checked.now shape.now.schema }
    requires params { AreParamsFor checked.now shape.now.schema params.now }
    ensures { IfOk result (λ secrets. secrets.items ≡ secrets_in checked.now shape.now params.now first_round) }
{
    checked.query.facts();
    let sizes = sizes_of(checked, shape);
    let slots = slots(checked, &shape.schema, params);
    slots_secrets(alloc, &sizes, slots.as_slice())
}

/// The secrets of the trees of a second round, from counts that can be.
fn second_secrets(alloc: Global, rows: u32, counts: &[u64]) -> Result<Vec<TreeSecret>, AllocError>
    requires rows { rows ≤ 262144 }
    requires taken { counts_taken rows 0 counts.now ≡ Ok tt }
    ensures { IfOk result (λ secrets. secrets.items ≡ secrets_of_second rows counts.now) }
{
    positions_secrets(alloc, position_bits(rows), counts)
}

/// The secrets of the trees of a round, from counts that can be.
fn taken_secrets(
    alloc: Global,
    checked: &Checked,
    shape: &Shape,
    params: &Params,
    round: u32,
    counts: &[u64],
) -> Result<Vec<TreeSecret>, AllocError>
    requires accepted { IsCheckedFor checked.now shape.now.schema }
    requires params { AreParamsFor checked.now shape.now.schema params.now }
    requires taken { counts_taken shape.now.rows 0 counts.now ≡ Ok tt }
    ensures { IfOk result (λ secrets. secrets.items ≡ secrets_in checked.now shape.now params.now (record { number = round; counts = counts.now })) }
{
    if round == 2 {
        second_secrets(alloc, shape.rows, counts)
    } else {
        first_secrets(alloc, checked, shape, params)
    }
}

/// The secrets of the trees of a plan's round. `counts` are the words that both answers to the first round add up to, for
/// the second one, and none for the first.
///
/// # Errors
///
/// `BadCount` with the first count that is above the shape's rows, or that is the second of a slot and below the first: its
/// place, the count, and the rows or the first. Or want of memory.
#[tactic(auto, unfolding(crate::specs::Counts::secrets_of))]
pub fn round_secrets(
    alloc: Global,
    _plan: &Plan,
    checked: &Checked,
    shape: &Shape,
    params: &Params,
    round: u32,
    counts: &[u64],
) -> Result<Secrets, SecretFault>
    requires accepted { IsCheckedFor checked.now shape.now.schema }
    requires params { AreParamsFor checked.now shape.now.schema params.now }
    requires plan { _plan.now ≡ plan_of checked.now shape.now }
    requires round { (1 ≤ round) × (round ≤ _plan.now.rounds) }
    requires none { round ≡ 1 → counts.now ≡ [] }
    requires told { round ≡ 2 → length counts.now ≡ _plan.now.first_words }
    ensures gives { Gives fault.OutOfMemory (λ secrets. secrets) result (secrets_of checked.now shape.now params.now (record { number = round; counts = counts.now })) }
    // A count that can't be is told however little memory there is.
    ensures refusals { (e : SecretFault) → secrets_of checked.now shape.now params.now (record { number = round; counts = counts.now }) ≡ Err e → result ≡ Err e }
    ensures first { round ≡ 1 → IfOk result (λ secrets. secrets ≡ secrets_in checked.now shape.now params.now first_round) }
{
    check_counts(shape.rows, counts)?;
    let secrets = taken_secrets(alloc, checked, shape, params, round, counts)?;
    Ok(Secrets::from_vec(secrets))
}
