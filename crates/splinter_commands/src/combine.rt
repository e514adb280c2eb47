//! The command `combine`: the result that a note and two answers come to.
ghost use Rattle.std.specs.Prelude.{◌≡◌, Ok, IfSome, IfOk, IfErr, IsErrOf};
ghost use Rattle.spl_outside.specs.Causes.{Counts};
ghost use Rattle.client_rounds.specs.Finishing.{note_in, answer_in, result_of, IsJudged};
ghost use Rattle.command_words.specs.Views.{combine_order};
ghost use Rattle.splinter_status.specs.Phases.{InputGives, StopsAtFiles, EndsAtFiles};
ghost use Rattle.splinter_commands.specs.Commands.{answer_of, combine_ready, combined, noted_in};
ghost use Rattle.splinter_commands.specs.Meets.{FilesFailed, Meets};
ghost use Rattle.splinter_commands.specs.Refusals.{or_ask_refusal};

use crate::refusals::{client_stop, name_of};
use answer_frames::AnswerFrame;
use client_rounds::{Judged, Source, judge_answer, judge_note, result_text};
use command_words::CombineWords;
use spl_outside::Files;
use spl_values::Bytes;
use splinter_status::{InputStop, Stopped};
use splinter_steps::read_file;
use std::alloc::Global;

/// What the bytes of the note say.
fn judged_note(alloc: Global, words: &CombineWords<'_>, bytes: &[u8]) -> Result<Judged, InputStop>
    ensures gives { InputGives (λ judged. judged) result (or_ask_refusal (combine_order words.now) (note_in bytes.now)) }
    ensures known { IfOk result IsJudged }
    ensures refusals { IfErr result StopsAtFiles }
    ensures no_fault { IsErrOf result InputStop.FileFault → ⊥ }
{
    match judge_note(alloc, bytes) {
        Ok(judged) => Ok(judged),
        Err(fault) => Err(client_stop(alloc, words, fault)),
    }
}

/// The answer that bytes are.
fn judged_answer(
    alloc: Global,
    words: &CombineWords<'_>,
    bytes: &[u8],
    source: Source,
) -> Result<AnswerFrame, InputStop>
    ensures gives { InputGives (λ answer. answer) result (or_ask_refusal (combine_order words.now) (answer_in source bytes.now)) }
    ensures refusals { IfErr result StopsAtFiles }
    ensures no_fault { IsErrOf result InputStop.FileFault → ⊥ }
{
    match judge_answer(alloc, bytes, source) {
        Ok(answer) => Ok(answer),
        Err(fault) => Err(client_stop(alloc, words, fault)),
    }
}

/// Reads the note, and what it says.
#[tactic(auto, unfolding(crate::specs::Commands::noted_in))]
fn read_note<F: Files>(
    alloc: Global,
    files: &mut F,
    words: &CombineWords<'_>,
) -> Result<Judged, InputStop>
    ensures gives { IfSome (F.held files.old) (λ m. InputGives (λ judged. judged) result (noted_in (combine_order words.now) m)) }
    ensures known { IfOk result IsJudged }
    ensures refusals { IfErr result StopsAtFiles }
    ensures stays { F.held files.new ≡ F.held files.old }
    ensures counts { Counts (F.faults files.old) (F.faults files.new) (IsErrOf result InputStop.FileFault) }
{
    let bytes = read_file(alloc, files, words.note)?;
    judged_note(alloc, words, &bytes)
}

/// Reads an answer.
#[tactic(auto, unfolding(crate::specs::Commands::answer_of))]
fn read_answer<F: Files>(
    alloc: Global,
    files: &mut F,
    words: &CombineWords<'_>,
    source: Source,
) -> Result<AnswerFrame, InputStop>
    ensures gives { IfSome (F.held files.old) (λ m. InputGives (λ answer. answer) result (answer_of (combine_order words.now) source m)) }
    ensures refusals { IfErr result StopsAtFiles }
    ensures stays { F.held files.new ≡ F.held files.old }
    ensures counts { Counts (F.faults files.old) (F.faults files.new) (IsErrOf result InputStop.FileFault) }
{
    let bytes = read_file(alloc, files, name_of(words, source))?;
    judged_answer(alloc, words, &bytes, source)
}

/// The text that both answers come to.
fn combined_text(
    alloc: Global,
    words: &CombineWords<'_>,
    judged: &Judged,
    first: &AnswerFrame,
    second: &AnswerFrame,
) -> Result<Bytes, InputStop>
    requires { IsJudged judged.now }
    ensures gives { InputGives (λ text. text) result (or_ask_refusal (combine_order words.now) (result_of judged.now first.now second.now)) }
    ensures refusals { IfErr result StopsAtFiles }
    ensures no_fault { IsErrOf result InputStop.FileFault → ⊥ }
{
    match result_text(alloc, judged, first, second) {
        Ok(text) => Ok(text),
        Err(fault) => Err(client_stop(alloc, words, fault)),
    }
}

/// Reads the note and both answers, each of which is judged before the next is read.
#[tactic(auto, unfolding(crate::specs::Commands::combine_ready))]
fn combine_files<F: Files>(
    alloc: Global,
    files: &mut F,
    words: &CombineWords<'_>,
) -> Result<Bytes, InputStop>
    ensures gives { IfSome (F.held files.old) (λ m. InputGives combined result (combine_ready (combine_order words.now) m)) }
    ensures refusals { IfErr result StopsAtFiles }
    ensures stays { F.held files.new ≡ F.held files.old }
    ensures counts { Counts (F.faults files.old) (F.faults files.new) (IsErrOf result InputStop.FileFault) }
{
    let judged = read_note(alloc, files, words)?;
    let first = read_answer(alloc, files, words, Source::First)?;
    let second = read_answer(alloc, files, words, Source::Second)?;
    combined_text(alloc, words, &judged, &first, &second)
}

/// The command, up to the text that it prints.
pub fn combine<F: Files>(
    alloc: Global,
    files: &mut F,
    words: &CombineWords<'_>,
) -> Result<Vec<u8>, Stopped>
    ensures told { (drawn : _) → IfSome (F.held files.old) (λ m. Meets (combine_ready (combine_order words.now) m) m (F.held files.new) drawn drawn result) }
    ensures refusals { IfErr result EndsAtFiles }
    ensures stays { F.held files.new ≡ F.held files.old }
    ensures files { Counts (F.faults files.old) (F.faults files.new) (FilesFailed result) }
    ensures no_write { IsErrOf result Stopped.FileFault → ⊥ }
    ensures no_draw { IsErrOf result Stopped.DrawFault → ⊥ }
{
    let text = combine_files(alloc, files, words)?;
    Ok(text.into_vec())
}
