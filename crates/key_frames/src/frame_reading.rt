//! Reading a key frame.
ghost use Rattle.std.specs.Prelude.{◌≡◌, IfOk, Ok};
ghost use Rattle.spl_words.specs.Results.{Gives};
ghost use Rattle.spl_words.specs.declared.fault.FrameFault.TheVariants.{OutOfMemory};
ghost use Rattle.frame_fields.specs.Reading.{Reads, frame_at};
ghost use Rattle.key_frames.specs.declared.frame.KeyFrame.{KeyFrame as Frame};
ghost use Rattle.key_frames.specs.FrameReading.{frame_fields_at};
ghost use Rattle.key_frames.specs.Frames.{KeyFrameOf};

use crate::frame::KeyFrame;
use crate::key_reading::keys;
use crate::texts::{query_text, shape_text};
use frame_fields::{be128, digest, magic, provider_field, start, version, within, within16};
use spl_words::{Fields, FrameFault};
use std::alloc::Global;

/// The fields before the digest.
#[tactic(auto, unfolding(crate::specs::FrameReading::frame_fields_at))]
fn fields_of(alloc: Global, fields: &mut Fields) -> Result<KeyFrame, FrameFault>
    ensures { Reads (λ f. f) result fields.new (frame_fields_at fields.old) }
{
    magic(fields, b"SPLK".as_slice())?;
    version(fields, 1)?;
    let round = within(fields, 1, 2)?;
    let provider = provider_field(fields)?;
    let session = be128(fields)?;
    let query_len = within16(fields, 1, 4096)?;
    let query = query_text(alloc, fields, query_len)?;
    let shape_len = within16(fields, 1, 65535)?;
    let shape = shape_text(alloc, fields, shape_len)?;
    let count = within16(fields, 1, 512)?;
    let keys = keys(alloc, fields, count)?;
    Ok(KeyFrame {
        session,
        round: round as u32,
        provider,
        query,
        shape,
        keys,
    })
}

/// The fields and the digest, and nothing behind them.
#[tactic(auto, unfolding(frame_fields::specs::Reading::frame_at))]
fn frame_of(alloc: Global, bytes: &[u8]) -> Result<KeyFrame, FrameFault>
    ensures { Gives OutOfMemory (λ f. f) result (frame_at frame_fields_at bytes.now) }
{
    let mut fields = start(bytes)?;
    let frame = fields_of(alloc, &mut fields)?;
    digest(&mut fields)?;
    Ok(frame)
}

/// The key frame that the bytes spell, or the first fault from the front: bytes that spell a frame are read, and only
/// those.
pub fn read_key_frame(alloc: Global, bytes: &[u8]) -> Result<KeyFrame, FrameFault>
    ensures found { IfOk result (λ f. KeyFrameOf bytes.now f) }
    ensures only { (f : Frame) → KeyFrameOf bytes.now f → Gives OutOfMemory (λ x. x) result (Ok f) }
    ensures fault { Gives OutOfMemory (λ f. f) result (frame_at frame_fields_at bytes.now) }
{
    frame_of(alloc, bytes)
}
