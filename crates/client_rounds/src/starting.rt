//! The first round of a session.
ghost use Rattle.std.specs.Prelude.{◌≡◌, ◌⊎◌, ◌≤◌, ◌<◌, ℕ, List, None, length, replicate, IfSome, IfOk, IfErr, IsErrOf};
ghost use Rattle.std.specs.List.{position};
ghost use Rattle.sha2.specs.Sha256.{sha256};
ghost use Rattle.spl_outside.specs.Causes.{Counts};
ghost use Rattle.query_reader.specs.Accepted.{IsCheckedFor};
ghost use Rattle.query_reader.specs.Params.{AreParamsFor};
ghost use Rattle.key_frames.specs.Frames.{FrameAllowed, KeyFrameOf};
ghost use Rattle.key_frames.specs.Notes.{NoteOf};
ghost use Rattle.key_frames.specs.Texts.{is_bad};
ghost use Rattle.private_plan.specs.Plans.{plan_of};
ghost use Rattle.private_plan.specs.Rounds.{first_round, secrets_in};
ghost use Rattle.session_model.specs.Draws.{wide};
ghost use Rattle.session_model.specs.Sessions.{session_roots};
ghost use Rattle.client_rounds.specs.Draws.{Draws};
ghost use Rattle.client_rounds.specs.Rounds.{words_taken, round_length, IsRoundOf, IsRound};
ghost use Rattle.client_rounds.specs.declared.faults.AskFault.TheVariants as ask;

use crate::draws::{Drawn, draw_session};
use crate::faults::AskFault;
use crate::rounds::{RoundHead, round_frames};
use key_frames::{KeyFrame, Note, frame_digest, write_key_frame, write_note};
use private_plan::{Plan, Secrets, plan, round_secrets};
use query_reader::{Checked, Params, print_query};
use seed_expansion::Expander;
use spl_outside::{Draw, Stop};
use spl_values::{Bytes, Shape};
use spl_words::Numbers;
use std::alloc::{AllocError, Global};

/// What a round leaves: the key frames for the two providers, and the client's note, as bytes.
#[derive(Debug, Drop)]
pub struct RoundOut {
    /// The key frame of `Zero`.
    pub left: Bytes,
    /// The key frame of `One`.
    pub right: Bytes,
    /// The note, which is the client's secret.
    pub note: Bytes,
    /// The number of this round, from 1.
    pub round: u32,
    /// How many rounds the query has.
    pub rounds: u32,
}

fn frame_bytes(alloc: Global, frame: &KeyFrame) -> Result<Bytes, AllocError>
    requires { FrameAllowed frame.now }
    ensures { IfOk result (λ bytes. KeyFrameOf bytes frame.now) }
{
    Ok(Bytes::from_vec(write_key_frame(alloc, frame)?))
}

/// The bytes of the note of a first round, from what its key frames say, the parameters, and the key frames themselves.
fn note_bytes(
    alloc: Global,
    head: RoundHead,
    params: &Params,
    left: &[u8],
    right: &[u8],
) -> Result<Bytes, AllocError>
    requires round { head.round ≡ 1 }
    requires some_text { 1 ≤ length head.query }
    requires short_text { length head.query ≤ 4096 }
    requires printable { position is_bad head.query ≡ None }
    requires some { 1 ≤ length params.now }
    requires few { length params.now ≤ 255 }
    ensures { IfOk result (λ bytes. NoteOf bytes (record { session = head.session; round = 1; query = head.query; shape = head.shape; params = params.now; key_zero = sha256 left.now; key_one = sha256 right.now; table = replicate 32 0 })) }
{
    let note = Note {
        session: head.session,
        round: head.round,
        query: head.query,
        shape: head.shape,
        params: Numbers::from_vec(params.as_slice().to_vec(alloc)?),
        key_zero: frame_digest(left),
        key_one: frame_digest(right),
        table: [0; 32],
    };
    Ok(Bytes::from_vec(write_note(alloc, &note)?))
}

/// The first round of a session with this number and these roots.
fn round_with<E: Expander>(
    alloc: Global,
    expander: &E,
    checked: &Checked,
    params: &Params,
    shape: &Shape,
    plan: &Plan,
    secrets: &Secrets,
    drawn: &Drawn,
) -> Result<RoundOut, AllocError>
    requires accepted { IsCheckedFor checked.now shape.now.schema }
    requires params { AreParamsFor checked.now shape.now.schema params.now }
    requires few { length params.now ≤ 255 }
    requires plan { plan.now ≡ plan_of checked.now shape.now }
    requires secrets { secrets.now ≡ secrets_in checked.now shape.now params.now first_round }
    requires roots { length drawn.now.roots ≡ length secrets.now }
    ensures { IfOk result (λ out. (words : List ℕ) → drawn.now.session ≡ wide words → drawn.now.roots ≡ session_roots secrets.now words → IsRoundOf (E.meaning expander.now) checked.now shape.now params.now words out) }
{
    // What a query and a shape keep is known once they are read.
    checked.query.facts();
    let _ = &shape.schema;
    let head = RoundHead {
        session: drawn.session,
        round: 1,
        first_tree: 0,
        query: print_query(alloc, &checked.query)?,
        shape: shape.clone()?,
    };
    let (zero, one) = round_frames(alloc, expander, &head, secrets, &drawn.roots)?;
    let left = frame_bytes(alloc, &zero)?;
    let right = frame_bytes(alloc, &one)?;
    let note = note_bytes(alloc, head, params, left.as_slice(), right.as_slice())?;
    Ok(RoundOut {
        left,
        right,
        note,
        round: 1,
        rounds: plan.rounds,
    })
}

/// What `start` gives, whose only stops are those of the source and of memory.
fn begun<E: Expander, R: Draw>(
    alloc: Global,
    expander: &E,
    checked: &Checked,
    params: &Params,
    shape: &Shape,
    draw: &mut R,
) -> Result<RoundOut, Stop>
    requires accepted { IsCheckedFor checked.now shape.now.schema }
    requires params { AreParamsFor checked.now shape.now.schema params.now }
    requires few { length params.now ≤ 255 }
    ensures told { IfSome (R.words draw.old) (λ ws. Draws (words_taken checked.now shape.now params.now) (IsRoundOf (E.meaning expander.now) checked.now shape.now params.now) ws (R.words draw.new) result) }
    // Also where the words aren't told.
    ensures some { IfOk result (IsRound (E.meaning expander.now) checked.now shape.now params.now) }
    // Both key frames are as long as the plan tells.
    ensures lengths { IfOk result (λ out. (length out.left ≡ round_length checked.now shape.now) × (length out.right ≡ round_length checked.now shape.now)) }
    ensures cause { Counts (R.faults draw.old) (R.faults draw.new) (IsErrOf result Stop.Failed) }
{
    // What a query and a shape keep is known once they are read.
    checked.query.facts();
    let _ = &shape.schema;
    let Ok(plan) = plan(alloc, checked, shape) else {
        return Err(Stop::OutOfMemory);
    };
    let Ok(secrets) = round_secrets(alloc, &plan, checked, shape, params, 1, &[]) else {
        return Err(Stop::OutOfMemory);
    };
    let drawn = draw_session(alloc, draw, secrets.as_slice().len() as u32)?;
    match round_with(
        alloc, expander, checked, params, shape, &plan, &secrets, &drawn,
    ) {
        Ok(round) => Ok(round),
        Err(_) => Err(Stop::OutOfMemory),
    }
}

/// Begins a session: draws its number and the roots of its trees, and gives the key frames and the note of the first
/// round. There are at most 255 parameters, as the calls that make them see to.
///
/// # Errors
///
/// `DrawFault` exactly where the source failed; `OutOfMemory`.
pub fn start<E: Expander, R: Draw>(
    alloc: Global,
    expander: &E,
    checked: &Checked,
    params: &Params,
    shape: &Shape,
    draw: &mut R,
) -> Result<RoundOut, AskFault>
    requires accepted { IsCheckedFor checked.now shape.now.schema }
    requires params { AreParamsFor checked.now shape.now.schema params.now }
    requires few { length params.now ≤ 255 }
    ensures told { IfSome (R.words draw.old) (λ ws. Draws (words_taken checked.now shape.now params.now) (IsRoundOf (E.meaning expander.now) checked.now shape.now params.now) ws (R.words draw.new) result) }
    // Also where the words aren't told.
    ensures some { IfOk result (IsRound (E.meaning expander.now) checked.now shape.now params.now) }
    // Both key frames are as long as the plan tells.
    ensures lengths { IfOk result (λ out. (length out.left ≡ round_length checked.now shape.now) × (length out.right ≡ round_length checked.now shape.now)) }
    ensures only { IfErr result (λ e. (e ≡ ask.DrawFault) ⊎ (e ≡ ask.OutOfMemory)) }
    ensures cause { Counts (R.faults draw.old) (R.faults draw.new) (IsErrOf result ask.DrawFault) }
{
    match begun(alloc, expander, checked, params, shape, draw) {
        Ok(round) => Ok(round),
        Err(Stop::Failed) => Err(AskFault::DrawFault),
        Err(Stop::OutOfMemory) => Err(AskFault::OutOfMemory),
    }
}
