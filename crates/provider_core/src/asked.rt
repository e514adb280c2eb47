//! What a key frame asks of a provider.
ghost use Rattle.std.specs.Prelude.{◌≡◌, ◌≤◌, None, Ok, IfOk, IfErr, length};
ghost use Rattle.std.specs.List.{position};
ghost use Rattle.spl_words.specs.Results.{Gives};
ghost use Rattle.frame_fields.specs.Reading.{frame_at};
ghost use Rattle.key_frames.specs.FrameReading.{frame_fields_at};
ghost use Rattle.key_frames.specs.Frames.{FrameAllowed, KeyFrameOf};
ghost use Rattle.key_frames.specs.Texts.{is_bad};
ghost use Rattle.judged_queries.specs.Queries.{checked_in};
ghost use Rattle.query_reader.specs.Accepted.{IsCheckedFor};
ghost use Rattle.sum_bounds.specs.Bounds.{sums_bounded};
ghost use Rattle.provider_core.specs.Asking.{asked_in, frame_in, if_own, keys_placed, or_no_frame, or_query_fault, or_sum_fault, query_in, IsRequest};
ghost use Rattle.provider_core.specs.Faults.{OwnsMemory};
ghost use Rattle.provider_core.specs.declared.fault.ProviderFault.TheVariants.{OutOfMemory};

use crate::fault::ProviderFault;
use crate::layout::check_layout;
use crate::shapes::check_shape;
use judged_queries::judge_query_bytes;
use key_frames::{KeyFrame, read_key_frame};
use private_plan::plan;
use query_reader::laws::accepted_has_cells;
use query_reader::{Checked, QueryFault};
use spl_values::{Schema, Table};
use spl_words::{FrameFault, Provider};
use std::alloc::Global;
use sum_bounds::check_sums;

/// A frame that nothing refuses, and its query.
#[derive(Debug, Drop)]
pub struct Request {
    pub frame: KeyFrame,
    pub checked: Checked,
}

/// The frame that bytes are.
fn frame_of(alloc: Global, bytes: &[u8]) -> Result<KeyFrame, ProviderFault>
    ensures gives { Gives OutOfMemory (λ f. f) result (or_no_frame (frame_at frame_fields_at bytes.now)) }
    ensures known { IfOk result (λ f. KeyFrameOf bytes.now f) }
    ensures memory { IfErr result OwnsMemory }
{
    match read_key_frame(alloc, bytes) {
        Ok(frame) => Ok(frame),
        Err(FrameFault::OutOfMemory) => Err(ProviderFault::OutOfMemory),
        Err(fault) => Err(ProviderFault::Frame(fault)),
    }
}

/// Whether a frame names this provider.
fn check_provider(provider: Provider, named: Provider) -> Result<(), ProviderFault>
    ensures { result ≡ if_own provider named }
{
    match (provider, named) {
        (Provider::Zero, Provider::Zero) | (Provider::One, Provider::One) => Ok(()),
        (Provider::Zero, Provider::One) | (Provider::One, Provider::Zero) => {
            Err(ProviderFault::WrongProvider(named))
        }
    }
}

/// The accepted query that a frame's text is.
fn query_of(alloc: Global, schema: &Schema, text: &[u8]) -> Result<Checked, ProviderFault>
    requires { position is_bad text.now ≡ None }
    ensures gives { Gives OutOfMemory (λ c. c) result (or_query_fault (checked_in schema.now text.now)) }
    ensures known { IfOk result (λ checked. IsCheckedFor checked schema.now) }
    ensures memory { IfErr result OwnsMemory }
{
    match judge_query_bytes(alloc, schema, text) {
        Ok(checked) => Ok(checked),
        Err(QueryFault::OutOfMemory) => Err(ProviderFault::OutOfMemory),
        Err(fault) => Err(ProviderFault::Query(fault)),
    }
}

/// Whether the query's plan asks for the frame's keys.
#[tactic(auto, unfolding(crate::specs::Asking::keys_placed))]
fn check_keys(
    alloc: Global,
    table: &Table,
    frame: &KeyFrame,
    checked: &Checked,
) -> Result<(), ProviderFault>
    requires accepted { IsCheckedFor checked.now table.now.shape.schema }
    requires few { length frame.now.keys ≤ 512 }
    ensures gives { Gives OutOfMemory (λ x. x) result (keys_placed table.now frame.now checked.now) }
    ensures memory { IfErr result OwnsMemory }
{
    let plan = plan(alloc, checked, table.shape())?;
    check_layout(&plan, frame.round, frame.keys.as_slice())
}

/// Whether the sums of an accepted query are within their bounds.
fn check_bounds(table: &Table, checked: &Checked) -> Result<(), ProviderFault>
    requires { IsCheckedFor checked.now table.now.shape.schema }
    ensures is { result ≡ or_sum_fault (sums_bounded table.now checked.now.spec.items) }
    ensures memory { IfErr result OwnsMemory }
{
    accepted_has_cells();
    match check_sums(table, checked.spec.items.as_slice()) {
        Ok(()) => Ok(()),
        Err(fault) => Err(ProviderFault::SumBound(fault.column, fault.at)),
    }
}

/// The frame that bytes are, for this provider and its table's shape.
#[tactic(auto, unfolding(crate::specs::Asking::frame_in))]
fn own_frame(
    alloc: Global,
    provider: Provider,
    bytes: &[u8],
    table: &Table,
) -> Result<KeyFrame, ProviderFault>
    ensures gives { Gives OutOfMemory (λ f. f) result (frame_in provider bytes.now table.now) }
    ensures known { IfOk result (λ f. KeyFrameOf bytes.now f) }
    ensures memory { IfErr result OwnsMemory }
{
    let frame = frame_of(alloc, bytes)?;
    check_provider(provider, frame.provider)?;
    check_shape(alloc, &frame.shape, table.shape())?;
    Ok(frame)
}

/// The accepted query of a frame that can be answered.
#[tactic(auto, unfolding(crate::specs::Asking::query_in))]
fn own_query(alloc: Global, table: &Table, frame: &KeyFrame) -> Result<Checked, ProviderFault>
    requires allowed { FrameAllowed frame.now }
    ensures gives { Gives OutOfMemory (λ c. c) result (query_in table.now frame.now) }
    ensures known { IfOk result (λ c. IsCheckedFor c table.now.shape.schema) }
    ensures placed { IfOk result (λ c. keys_placed table.now frame.now c ≡ Ok tt) }
    ensures memory { IfErr result OwnsMemory }
{
    let checked = query_of(alloc, &table.shape().schema, frame.query.as_slice())?;
    check_keys(alloc, table, frame, &checked)?;
    check_bounds(table, &checked)?;
    Ok(checked)
}

/// What bytes ask of a provider over its table.
#[tactic(auto, unfolding(crate::specs::Asking::asked_in))]
pub fn judge(
    alloc: Global,
    provider: Provider,
    bytes: &[u8],
    table: &Table,
) -> Result<Request, ProviderFault>
    ensures gives { Gives OutOfMemory (λ asked. asked) result (asked_in provider bytes.now table.now) }
    ensures asked { IfOk result (IsRequest bytes.now table.now) }
    ensures memory { IfErr result OwnsMemory }
{
    let frame = own_frame(alloc, provider, bytes, table)?;
    let checked = own_query(alloc, table, &frame)?;
    Ok(Request { frame, checked })
}
