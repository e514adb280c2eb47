//! Beginning a session.
ghost use Rattle.std.specs.Prelude.{IfSome, IfOk, IfErr, IsErrOf};
ghost use Rattle.spl_outside.specs.Causes.{Counts};
ghost use Rattle.seed_expansion.specs.ChaChaExpansion.{chacha};
ghost use Rattle.client_rounds.specs.Draws.{Draws};
ghost use Rattle.client_rounds.specs.Rounds.{words_taken, IsRound, IsRoundOf};
ghost use Rattle.splinter_steps.specs.Questions.{IsAsked};
ghost use Rattle.splinter_commands.specs.Meets.{IsDrawing};

use client_rounds::laws::params_are_few;
use client_rounds::{AskFault, RoundOut, start};
use seed_expansion::ChaChaExpander;
use spl_outside::Draw;
use spl_values::Shape;
use splinter_status::Stopped;
use splinter_steps::Asked;
use std::alloc::Global;

/// Begins a session with the shipped expander: the key frames and the note of its first round.
pub fn begin<R: Draw>(
    alloc: Global,
    draw: &mut R,
    asked: &Asked,
    shape: &Shape,
) -> Result<RoundOut, Stopped>
    requires { IsAsked shape.now asked.now }
    ensures told { IfSome (R.words draw.old) (λ ws. Draws (words_taken asked.now.checked shape.now asked.now.params) (IsRoundOf chacha asked.now.checked shape.now asked.now.params) ws (R.words draw.new) result) }
    // Also where the words aren't told.
    ensures round { IfOk result (IsRound chacha asked.now.checked shape.now asked.now.params) }
    ensures drawing { IfErr result IsDrawing }
    ensures counts { Counts (R.faults draw.old) (R.faults draw.new) (IsErrOf result Stopped.DrawFault) }
{
    params_are_few();
    let round = start(
        alloc,
        &ChaChaExpander,
        &asked.checked,
        &asked.params,
        shape,
        draw,
    );
    match round {
        Ok(round) => Ok(round),
        Err(AskFault::DrawFault) => Err(Stopped::DrawFault),
        Err(AskFault::OutOfMemory) => Err(Stopped::OutOfMemory),
        // Beginning a session refuses nothing else.
        Err(_) => unreachable!(),
    }
}
