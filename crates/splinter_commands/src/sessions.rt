//! A whole session in one process: both providers answer, and the client reads the result.
ghost use Rattle.std.specs.Prelude.{◌≡◌, ◌++◌, ℕ, List, Ok, IfOk};
ghost use Rattle.spl_words.specs.declared.provider.Provider.{Provider as TheProvider};
ghost use Rattle.spl_words.specs.declared.provider.Provider.TheVariants.{Zero, One};
ghost use Rattle.seed_expansion.specs.ChaChaExpansion.{chacha};
ghost use Rattle.answer_frames.specs.declared.answer.AnswerFrame.{AnswerFrame as Frame};
ghost use Rattle.answer_frames.specs.Spelling.{AnswerOf};
ghost use Rattle.session_model.specs.Answers.{answer_frame};
ghost use Rattle.session_model.specs.Sessions.{key_bytes, key_frame, round_answer, clear_text};
ghost use Rattle.provider_core.specs.Answering.{answered};
ghost use Rattle.client_rounds.specs.Finishing.{finished};
ghost use Rattle.client_rounds.specs.Rounds.{IsRound, IsRoundOf};
ghost use Rattle.command_words.specs.Views.{IsWorkers};
ghost use Rattle.splinter_commands.specs.Commands.{round_text, spaced, trace_text};
ghost use Rattle.splinter_commands.specs.Questions.{IsTraced};
ghost use Rattle.splinter_commands.specs.HeldSessions.{Comes};

use crate::trace::Traced;
use answer_frames::read_answer;
use client_rounds::{AskFault, RoundOut, finish};
use provider_core::{ProviderFault, answer};
use seed_expansion::ChaChaExpander;
use seed_expansion::laws::chacha_is_pure;
use session_laws::laws::{own_keys_are_answered, own_sessions_end};
use share_eval::Gate;
use spl_values::{Bytes, Table};
use spl_words::{FrameFault, Provider, Words};
use std::alloc::{AllocError, Global};
use std::thread::Threads;

/// The answer to a key frame that nothing refuses.
fn answer_of<T: Threads + Sync, G: Gate + Sync>(
    rt: &T,
    alloc: Global,
    provider: Provider,
    key: &[u8],
    table: &Table,
    workers: usize,
    gate: &G,
) -> Result<Vec<u8>, AllocError>
    requires workers { IsWorkers workers }
    requires comes { Comes (answered chacha provider key.now table.now) }
    ensures { (bytes : List ℕ) → answered chacha provider key.now table.now ≡ Ok bytes → IfOk result (λ v. v.items ≡ bytes) }
{
    match answer(
        rt,
        alloc,
        &ChaChaExpander,
        provider,
        key,
        table,
        workers,
        gate,
    ) {
        Ok(bytes) => Ok(bytes),
        Err(ProviderFault::OutOfMemory) => Err(AllocError),
        Err(_) => unreachable!(),
    }
}

/// The words of an answer frame.
fn words_of(alloc: Global, bytes: &[u8]) -> Result<Words, AllocError>
    requires { (frame : Frame) × AnswerOf bytes.now frame }
    ensures { (frame : Frame) → AnswerOf bytes.now frame → IfOk result (λ words. words ≡ frame.words) }
{
    match read_answer(alloc, bytes) {
        Ok(frame) => Ok(frame.words),
        Err(FrameFault::OutOfMemory) => Err(AllocError),
        Err(_) => unreachable!(),
    }
}

/// The text of the result of a session that nothing refuses.
fn result_of(alloc: Global, note: &[u8], zero: &[u8], one: &[u8]) -> Result<Bytes, AllocError>
    requires { Comes (finished note.now zero.now one.now) }
    ensures { (text : List ℕ) → finished note.now zero.now one.now ≡ Ok text → IfOk result (λ t. t ≡ text) }
{
    match finish(alloc, note, zero, one) {
        Ok(text) => Ok(text),
        Err(AskFault::OutOfMemory) => Err(AllocError),
        Err(_) => unreachable!(),
    }
}

/// Appends words, each behind a space.
fn push_words(alloc: Global, text: &mut Vec<u8>, words: &[u64]) -> Result<(), AllocError>
    ensures { IfOk result (λ _. text.new.items ≡ text.old.items ++ spaced words.now) }
{
    for word in words {
        let word = *word;
        let shown = format!(in alloc; " {word}")?;
        text.extend_from_slice(shown.as_bytes())?;
    }
    Ok(())
}

/// The lines of a round: the words of `Zero` and those of `One`.
fn round_lines(alloc: Global, zero: &[u64], one: &[u64]) -> Result<Vec<u8>, AllocError>
    ensures { IfOk result (λ text. text.items ≡ round_text zero.now one.now) }
{
    let mut text = Vec::from_slice(alloc, b"round 1\n0".as_slice())?;
    push_words(alloc, &mut text, zero)?;
    text.extend_from_slice(b"\n1".as_slice())?;
    push_words(alloc, &mut text, one)?;
    text.extend_from_slice(b"\n".as_slice())?;
    Ok(text)
}

/// Both providers answer a round, and their answers end the session with the clear answer. The function does nothing: its
/// clauses are what is known.
fn round_is_answered(traced: &Traced, round: &RoundOut)
    requires { IsTraced traced.now }
    ensures zero { (words : List ℕ) → IsRoundOf chacha traced.now.asked.checked traced.now.table.shape traced.now.asked.params words round.now
        → answered chacha Zero round.now.left traced.now.table ≡ Ok (round_answer chacha Zero traced.now.asked.checked traced.now.table traced.now.asked.params words) }
    ensures one { (words : List ℕ) → IsRoundOf chacha traced.now.asked.checked traced.now.table.shape traced.now.asked.params words round.now
        → answered chacha One round.now.right traced.now.table ≡ Ok (round_answer chacha One traced.now.asked.checked traced.now.table traced.now.asked.params words) }
    ensures frames { (p : TheProvider) (words : List ℕ) → IsRoundOf chacha traced.now.asked.checked traced.now.table.shape traced.now.asked.params words round.now
        → AnswerOf (round_answer chacha p traced.now.asked.checked traced.now.table traced.now.asked.params words)
        (answer_frame chacha p (key_bytes chacha p traced.now.asked.checked traced.now.table.shape traced.now.asked.params words) (key_frame chacha p traced.now.asked.checked traced.now.table.shape traced.now.asked.params words) traced.now.asked.checked traced.now.table) }
    ensures ended { (words : List ℕ) → IsRoundOf chacha traced.now.asked.checked traced.now.table.shape traced.now.asked.params words round.now
        → finished round.now.note (round_answer chacha Zero traced.now.asked.checked traced.now.table traced.now.asked.params words) (round_answer chacha One traced.now.asked.checked traced.now.table traced.now.asked.params words)
        ≡ Ok (clear_text traced.now.asked.checked traced.now.asked.params traced.now.table) }
{
    // What a query and a table keep is known once they are read.
    traced.asked.checked.query.facts();
    let _ = traced.table.shape();
    chacha_is_pure();
    own_keys_are_answered();
    own_sessions_end();
}

/// The lines of the round of a session, and the text of its result.
pub fn session_text<T: Threads + Sync, G: Gate + Sync>(
    rt: &T,
    alloc: Global,
    traced: &Traced,
    round: &RoundOut,
    workers: usize,
    gate: &G,
) -> Result<Vec<u8>, AllocError>
    requires workers { IsWorkers workers }
    requires traced { IsTraced traced.now }
    requires round { IsRound chacha traced.now.asked.checked traced.now.table.shape traced.now.asked.params round.now }
    ensures { (words : List ℕ) → IsRoundOf chacha traced.now.asked.checked traced.now.table.shape traced.now.asked.params words round.now → IfOk result (λ text. text.items ≡ trace_text traced.now words) }
{
    round_is_answered(traced, round);
    let table = &traced.table;
    let left = round.left.as_slice();
    let right = round.right.as_slice();
    let zero = answer_of(rt, alloc, Provider::Zero, left, table, workers, gate)?;
    let one = answer_of(rt, alloc, Provider::One, right, table, workers, gate)?;
    let result = result_of(alloc, round.note.as_slice(), &zero, &one)?;
    let zero = words_of(alloc, &zero)?;
    let one = words_of(alloc, &one)?;
    let mut text = round_lines(alloc, zero.as_slice(), one.as_slice())?;
    text.extend_from_slice(result.as_slice())?;
    Ok(text)
}
