//! What a note and an answer say.
ghost use Rattle.std.specs.Prelude.{◌≡◌, IfOk, IsErrOf};
ghost use Rattle.std.specs.Str.{IsAscii};
ghost use Rattle.frame_fields.specs.Reading.{frame_at};
ghost use Rattle.query_reader.specs.Accepted.{IsCheckedFor};
ghost use Rattle.query_reader.specs.Params.{AreParamsFor};
ghost use Rattle.judged_queries.specs.Queries.{checked_in};
ghost use Rattle.judged_queries.specs.Codes.{codes_in};
ghost use Rattle.key_frames.specs.NoteReading.{note_fields_at};
ghost use Rattle.spl_words.specs.Results.{Gives};
ghost use Rattle.client_rounds.specs.declared.faults.AskFault.TheVariants as ask;
ghost use Rattle.client_rounds.specs.Faults.{query_fault, param_fault};
ghost use Rattle.client_rounds.specs.Finishing.{IsJudged, answer_in, frame_fault as fault_of_frame, if_built, note_in, or_ask};

use crate::faults::{AskFault, Source};
use answer_frames::{AnswerFrame, read_answer};
use judged_queries::{judge_codes, judge_query_bytes};
use key_frames::{Note, read_note};
use private_plan::{Plan, PlanKind, is_built, plan};
use query_reader::{Checked, Params};
use spl_words::FrameFault;
use std::alloc::Global;

/// A note, with its query over its shape, the query's parameters and its plan.
#[derive(Debug, Drop)]
pub struct Judged {
    pub note: Note,
    pub checked: Checked,
    pub params: Params,
    pub plan: Plan,
}

/// What a frame's fault is for a client.
fn frame_fault(source: Source, fault: FrameFault) -> AskFault
    ensures is { result ≡ fault_of_frame source fault }
    ensures no_draw { result ≡ ask.DrawFault → ⊥ }
{
    match fault {
        FrameFault::OutOfMemory => AskFault::OutOfMemory,
        fault => AskFault::Frame(source, fault),
    }
}

/// The note that bytes spell.
fn note_of(alloc: Global, bytes: &[u8]) -> Result<Note, AskFault>
    ensures gives { Gives ask.OutOfMemory (λ note. note) result (or_ask (fault_of_frame Source.Note) (frame_at note_fields_at bytes.now)) }
    ensures ascii { IfOk result (λ note. IsAscii note.query) }
    ensures no_draw { IsErrOf result ask.DrawFault → ⊥ }
{
    match read_note(alloc, bytes) {
        Ok(note) => Ok(note),
        Err(fault) => Err(frame_fault(Source::Note, fault)),
    }
}

/// What is known of the note's query over the note's shape.
#[tactic(auto, using(crate::proofs::NoDraws::query_draws_none))]
fn checked_of(alloc: Global, note: &Note) -> Result<Checked, AskFault>
    requires { IsAscii note.now.query }
    ensures gives { Gives ask.OutOfMemory (λ checked. checked) result (or_ask query_fault (checked_in note.now.shape.schema note.now.query)) }
    ensures known { IfOk result (λ checked. IsCheckedFor checked note.now.shape.schema) }
    ensures no_draw { IsErrOf result ask.DrawFault → ⊥ }
{
    Ok(judge_query_bytes(alloc, &note.shape.schema, note.query.as_slice())?)
}

/// Refuses a plan that isn't answered yet.
fn check_built(kind: PlanKind) -> Result<(), AskFault>
    ensures is { result ≡ if_built kind }
    ensures no_draw { IsErrOf result ask.DrawFault → ⊥ }
{
    if is_built(kind) {
        Ok(())
    } else {
        Err(AskFault::NotBuilt(kind))
    }
}

/// The note's parameters.
#[tactic(auto, using(crate::proofs::NoDraws::param_draws_none))]
fn params_of(alloc: Global, note: &Note, checked: &Checked) -> Result<Params, AskFault>
    requires { IsCheckedFor checked.now note.now.shape.schema }
    ensures gives { Gives ask.OutOfMemory (λ params. params) result (or_ask param_fault (codes_in checked.now.query note.now.shape.schema note.now.params)) }
    ensures known { IfOk result (λ params. AreParamsFor checked.now note.now.shape.schema params) }
    ensures no_draw { IsErrOf result ask.DrawFault → ⊥ }
{
    Ok(judge_codes(alloc, checked, &note.shape.schema, note.params.as_slice())?)
}

/// What a note says.
///
/// # Errors
///
/// In this order: `Frame` where the bytes are no note; `Query` where its text is no query that is accepted for its shape;
/// `NotBuilt` where the query's plan isn't answered yet; `Param` where its codes aren't parameters of the query;
/// `OutOfMemory`.
#[tactic(auto, unfolding(crate::specs::Finishing::note_in))]
pub fn judge_note(alloc: Global, bytes: &[u8]) -> Result<Judged, AskFault>
    // What the bytes say, unless memory runs out.
    ensures gives { Gives ask.OutOfMemory (λ judged. judged) result (note_in bytes.now) }
    ensures known { IfOk result IsJudged }
    // Judging draws nothing.
    ensures no_draw { IsErrOf result ask.DrawFault → ⊥ }
{
    let note = note_of(alloc, bytes)?;
    let checked = checked_of(alloc, &note)?;
    let plan = plan(alloc, &checked, &note.shape)?;
    check_built(plan.kind)?;
    let params = params_of(alloc, &note, &checked)?;
    Ok(Judged {
        note,
        checked,
        params,
        plan,
    })
}

/// The answer frame that bytes spell, which are those of the first or the second answer.
///
/// # Errors
///
/// `Frame` where the bytes are no answer frame; `OutOfMemory`.
pub fn judge_answer(alloc: Global, bytes: &[u8], source: Source) -> Result<AnswerFrame, AskFault>
    // What the bytes say, unless memory runs out.
    ensures gives { Gives ask.OutOfMemory (λ answer. answer) result (answer_in source bytes.now) }
    // Judging draws nothing.
    ensures no_draw { IsErrOf result ask.DrawFault → ⊥ }
{
    match read_answer(alloc, bytes) {
        Ok(answer) => Ok(answer),
        Err(fault) => Err(frame_fault(source, fault)),
    }
}
