//! The end of a session.
ghost use Rattle.std.specs.Prelude.{◌≡◌, All, length, IfOk, IsErrOf};
ghost use Rattle.clear_sql.specs.AnswerText.{GroupFits};
ghost use Rattle.combiner.specs.Combining.{combined};
ghost use Rattle.combiner.specs.Finals.{last_words as words_of_last, final_of};
ghost use Rattle.spl_words.specs.Results.{Gives};
ghost use Rattle.client_rounds.specs.declared.faults.AskFault.TheVariants as ask;
ghost use Rattle.client_rounds.specs.Finishing.{IsJudged, text_of_answers, combine_fault, final_fault, finished, or_ask, result_of};

use crate::faults::{AskFault, Source};
use crate::judging::{Judged, judge_answer, judge_note};
use answer_frames::AnswerFrame;
use clear_sql::{Answer, print_answer};
use combiner::{CombineFault, FinalFault, combine_words, final_answer, last_words};
use spl_values::Bytes;
use spl_words::Words;
use std::alloc::Global;

impl From<CombineFault> for AskFault {
    ghost from_gives = { λ fault e. e ≡ combine_fault fault };

    fn from(fault: CombineFault) -> Self {
        match fault {
            CombineFault::SameProvider(provider) => AskFault::SameProvider(provider),
            CombineFault::Differ(differ) => AskFault::Differ(differ),
            CombineFault::OutOfMemory => AskFault::OutOfMemory,
        }
    }
}

impl From<FinalFault> for AskFault {
    ghost from_gives = { λ fault e. e ≡ final_fault fault };

    fn from(fault: FinalFault) -> Self {
        match fault {
            FinalFault::BadWord(place, word) => AskFault::BadWord(place, word),
            FinalFault::OutOfMemory => AskFault::OutOfMemory,
        }
    }
}

/// The words that two answers add up to.
#[tactic(auto, using(crate::proofs::NoDraws::combine_draws_none))]
fn words_of(
    alloc: Global,
    judged: &Judged,
    a: &AnswerFrame,
    b: &AnswerFrame,
) -> Result<Words, AskFault>
    ensures gives { Gives ask.OutOfMemory (λ words. words) result (or_ask combine_fault (combined judged.now.note a.now b.now (words_of_last judged.now.plan))) }
    ensures length { IfOk result (λ words. length words ≡ words_of_last judged.now.plan) }
    ensures no_draw { IsErrOf result ask.DrawFault → ⊥ }
{
    Ok(combine_words(alloc, &judged.note, a, b, last_words(&judged.plan))?)
}

/// The answer that combined words stand for.
#[tactic(auto, using(crate::proofs::NoDraws::final_draws_none))]
fn answer_of(alloc: Global, judged: &Judged, words: &[u64]) -> Result<Answer, AskFault>
    requires judged { IsJudged judged.now }
    requires words { length words.now ≡ words_of_last judged.now.plan }
    ensures gives { Gives ask.OutOfMemory (λ answer. answer.groups) result (or_ask final_fault (final_of judged.now.checked judged.now.note.shape words.now)) }
    ensures printable { IfOk result (λ answer. All (GroupFits judged.now.note.shape.schema.columns judged.now.checked.spec) answer.groups) }
    ensures no_draw { IsErrOf result ask.DrawFault → ⊥ }
{
    Ok(final_answer(
        alloc,
        &judged.checked,
        &judged.plan,
        &judged.note.shape,
        words,
    )?)
}

/// The text that two answers to a note's session come to, which may come in either order: the answer that the combined
/// words of the plan's last round stand for.
///
/// # Errors
///
/// In this order: `SameProvider`, `Differ` and `BadWord`, as `combine_words` and `final_answer` say; `OutOfMemory`.
#[tactic(auto, unfolding(crate::specs::Finishing::result_of))]
pub fn result_text(
    alloc: Global,
    judged: &Judged,
    a: &AnswerFrame,
    b: &AnswerFrame,
) -> Result<Bytes, AskFault>
    requires { IsJudged judged.now }
    // What they come to, unless memory runs out.
    ensures gives { Gives ask.OutOfMemory (λ text. text) result (result_of judged.now a.now b.now) }
    // Ending a session draws nothing.
    ensures no_draw { IsErrOf result ask.DrawFault → ⊥ }
{
    let words = words_of(alloc, judged, a, b)?;
    let answer = answer_of(alloc, judged, words.as_slice())?;
    let schema = &judged.note.shape.schema;
    Ok(print_answer(alloc, &judged.checked, schema, &answer)?)
}

/// The same of the bytes of two answers.
#[tactic(auto, unfolding(crate::specs::Finishing::text_of_answers))]
fn answers_text(alloc: Global, judged: &Judged, a: &[u8], b: &[u8]) -> Result<Bytes, AskFault>
    requires { IsJudged judged.now }
    ensures gives { Gives ask.OutOfMemory (λ text. text) result (text_of_answers judged.now a.now b.now) }
    ensures no_draw { IsErrOf result ask.DrawFault → ⊥ }
{
    let first = judge_answer(alloc, a, Source::First)?;
    let second = judge_answer(alloc, b, Source::Second)?;
    result_text(alloc, judged, &first, &second)
}

/// Ends a session: the text of the answer, from the bytes of the note of the last round and of the two answers to it, which
/// may come in either order.
///
/// # Errors
///
/// In this order: those of `judge_note`, of `judge_answer` for the first answer and then for the second, and of
/// `result_text`.
#[tactic(auto, unfolding(crate::specs::Finishing::finished))]
pub fn finish(alloc: Global, note: &[u8], a: &[u8], b: &[u8]) -> Result<Bytes, AskFault>
    // What they come to, unless memory runs out.
    ensures gives { Gives ask.OutOfMemory (λ text. text) result (finished note.now a.now b.now) }
    // Ending a session draws nothing.
    ensures no_draw { IsErrOf result ask.DrawFault → ⊥ }
{
    let judged = judge_note(alloc, note)?;
    answers_text(alloc, &judged, a, b)
}
