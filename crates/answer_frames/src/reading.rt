//! Reading an answer frame.
ghost use Rattle.std.specs.Prelude.{◌≡◌, IfOk, Ok};
ghost use Rattle.std.specs.Int.{w64};
ghost use Rattle.spl_words.specs.Results.{Gives};
ghost use Rattle.spl_words.specs.declared.fault.FrameFault.TheVariants.{OutOfMemory};
ghost use Rattle.frame_fields.specs.Reading.{Reads, many_at, number_at, frame_at};
ghost use Rattle.answer_frames.specs.declared.answer.AnswerFrame.{AnswerFrame as Frame};
ghost use Rattle.answer_frames.specs.Reading.{fields_at};
ghost use Rattle.answer_frames.specs.Spelling.{AnswerOf};

use crate::answer::AnswerFrame;
use frame_fields::{
    be64, be128, digest, magic, provider_field, start, take32, version, within, within32,
};
use spl_words::{Fields, FrameFault, Words};
use std::alloc::Global;

/// So many words.
fn words(alloc: Global, fields: &mut Fields, count: u32) -> Result<Words, FrameFault>
    ensures { Reads (λ v. v) result fields.new (many_at (number_at w64) count fields.old) }
{
    let mut words = Words::new(alloc);
    for _ in 0..count {
        let word = be64(fields)?;
        words.push(word)?;
    }
    Ok(words)
}

/// The fields before the digest.
#[tactic(auto, unfolding(crate::specs::Reading::fields_at))]
fn fields_of(alloc: Global, fields: &mut Fields) -> Result<AnswerFrame, FrameFault>
    ensures { Reads (λ f. f) result fields.new (fields_at fields.old) }
{
    magic(fields, b"SPLA".as_slice())?;
    version(fields, 1)?;
    let round = within(fields, 1, 2)?;
    let provider = provider_field(fields)?;
    let session = be128(fields)?;
    let key = take32(fields)?;
    let table = take32(fields)?;
    let count = within32(fields, 1, 65536)?;
    let words = words(alloc, fields, count)?;
    Ok(AnswerFrame {
        session,
        round: round as u32,
        provider,
        key,
        table,
        words,
    })
}

/// The fields and the digest, and nothing behind them.
#[tactic(auto, unfolding(frame_fields::specs::Reading::frame_at))]
fn frame_of(alloc: Global, bytes: &[u8]) -> Result<AnswerFrame, FrameFault>
    ensures { Gives OutOfMemory (λ f. f) result (frame_at fields_at bytes.now) }
{
    let mut fields = start(bytes)?;
    let frame = fields_of(alloc, &mut fields)?;
    digest(&mut fields)?;
    Ok(frame)
}

/// The answer frame that the bytes spell, or the first fault from the front: bytes that spell a frame are read, and
/// only those.
pub fn read_answer(alloc: Global, bytes: &[u8]) -> Result<AnswerFrame, FrameFault>
    ensures found { IfOk result (λ f. AnswerOf bytes.now f) }
    ensures only { (f : Frame) → AnswerOf bytes.now f → Gives OutOfMemory (λ x. x) result (Ok f) }
    ensures fault { Gives OutOfMemory (λ f. f) result (frame_at fields_at bytes.now) }
{
    frame_of(alloc, bytes)
}
