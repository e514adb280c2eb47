//! Judging a query and its parameters.
ghost use Rattle.std.specs.Prelude.{◌≡◌, map, IfOk, IfErr, IsErrOf};
ghost use Rattle.std.specs.String.{string_bytes};
ghost use Rattle.query_reader.specs.Accepted.{IsCheckedFor};
ghost use Rattle.query_reader.specs.Params.{AreParamsFor, params_of_words as params_in_words};
ghost use Rattle.judged_queries.specs.Queries.{checked_in};
ghost use Rattle.private_plan.specs.Plans.{IsBuilt, plan_of};
ghost use Rattle.splinter_status.specs.Phases.{InputGives, StopsAtFiles};
ghost use Rattle.splinter_steps.specs.Questions.{asked_in, if_built, or_param_refusal, or_query_refusal, IsAsked};
ghost use Rattle.splinter_steps.specs.Stops.{stop_of_params};

use judged_queries::{judge_query, judge_words};
use private_plan::{is_built, plan};
use query_reader::{Checked, ParamFault, Params, QueryFault};
use spl_values::Shape;
use splinter_status::{InputStop, Part, Refusal};
use std::alloc::Global;

/// An accepted query whose plan is built, and its parameters.
#[derive(Debug, Drop)]
pub struct Asked {
    /// What is known of the query.
    pub checked: Checked,
    /// The codes of its parameters.
    pub params: Params,
}

/// What is known of the query that a text is, for a shape.
fn checked_query(alloc: Global, shape: &Shape, text: &str) -> Result<Checked, InputStop>
    ensures gives { InputGives (λ checked. checked) result (or_query_refusal (checked_in shape.now.schema text.now)) }
    ensures known { IfOk result (λ checked. IsCheckedFor checked shape.now.schema) }
    ensures refusals { IfErr result StopsAtFiles }
    ensures no_fault { IsErrOf result InputStop.FileFault → ⊥ }
{
    match judge_query(alloc, &shape.schema, text) {
        Ok(checked) => Ok(checked),
        Err(QueryFault::OutOfMemory) => Err(InputStop::OutOfMemory),
        Err(fault) => Err(InputStop::Refused(Refusal::Query(fault))),
    }
}

/// Refuses a query whose plan isn't built yet.
fn check_built(alloc: Global, checked: &Checked, shape: &Shape) -> Result<(), InputStop>
    requires { IsCheckedFor checked.now shape.now.schema }
    ensures gives { InputGives (λ built. built) result (if_built (plan_of checked.now shape.now).kind) }
    ensures built { IfOk result (λ _. IsBuilt checked.now shape.now.schema.columns) }
    ensures refusals { IfErr result StopsAtFiles }
    ensures no_fault { IsErrOf result InputStop.FileFault → ⊥ }
{
    let Ok(plan) = plan(alloc, checked, shape) else {
        return Err(InputStop::OutOfMemory);
    };
    if is_built(plan.kind) {
        Ok(())
    } else {
        Err(InputStop::Refused(Refusal::NotBuilt(Part::Plan)))
    }
}

/// The stop of parameters that aren't taken.
fn param_stop(fault: ParamFault) -> InputStop
    ensures { result ≡ stop_of_params fault }
{
    match fault {
        ParamFault::OutOfMemory => InputStop::OutOfMemory,
        fault => InputStop::Refused(Refusal::Param(fault)),
    }
}

/// The codes of the query's parameters, which words say.
fn params_of(
    alloc: Global,
    checked: &Checked,
    shape: &Shape,
    words: &[String],
) -> Result<Params, InputStop>
    requires { IsCheckedFor checked.now shape.now.schema }
    ensures gives { InputGives (λ params. params) result (or_param_refusal (params_in_words checked.now.query shape.now.schema (map string_bytes words.now))) }
    ensures known { IfOk result (λ params. AreParamsFor checked.now shape.now.schema params) }
    ensures refusals { IfErr result StopsAtFiles }
    ensures no_fault { IsErrOf result InputStop.FileFault → ⊥ }
{
    match judge_words(alloc, checked, &shape.schema, words) {
        Ok(params) => Ok(params),
        Err(fault) => Err(param_stop(fault)),
    }
}

/// Judges a query and its parameters, and tells what they ask of a table of that shape.
#[tactic(auto, unfolding(crate::specs::Questions::asked_in))]
pub fn judge(
    alloc: Global,
    shape: &Shape,
    query: &str,
    parameters: &[String],
) -> Result<Asked, InputStop>
    ensures gives { InputGives (λ asked. asked) result (asked_in shape.now query.now (map string_bytes parameters.now)) }
    ensures asked { IfOk result (IsAsked shape.now) }
    ensures refusals { IfErr result StopsAtFiles }
    ensures no_fault { IsErrOf result InputStop.FileFault → ⊥ }
{
    let checked = checked_query(alloc, shape, query)?;
    check_built(alloc, &checked, shape)?;
    let params = params_of(alloc, &checked, shape, parameters)?;
    Ok(Asked { checked, params })
}
