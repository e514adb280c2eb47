//! Reading the two texts that frames and notes have.
ghost use Rattle.std.specs.Prelude.{◌≡◌, ◌≤◌, length, MatchResult};
ghost use Rattle.std.specs.List.{position};
ghost use Rattle.spl_words.specs.declared.fault.FrameFault.TheVariants.{OutOfMemory};
ghost use Rattle.frame_fields.specs.Reading.{Reads, text_at, decoded_at};
ghost use Rattle.key_frames.specs.Texts.{is_bad, canonical_shape};
ghost use Rattle.spl_values.specs.Shapes.{IsShape};
ghost use Rattle.spl_values.specs.ShapeTexts.{shape_text as canonical};

use frame_fields::take;
use spl_values::{Bytes, Shape, ShapeFault, print_shape, read_shape};
use spl_words::{Fields, FrameFault};
use std::alloc::Global;

/// The place of the first byte that no query's text has.
fn first_bad(bytes: &[u8]) -> Option<usize>
    ensures { result ≡ position is_bad bytes.now }
{
    bytes.iter().position(|byte| *byte < 32 || 126 < *byte)
}

/// A query's text of so many bytes.
#[tactic(auto, unfolding(frame_fields::specs::Reading::text_at))]
pub fn query_text(alloc: Global, fields: &mut Fields, len: u16) -> Result<Bytes, FrameFault>
    ensures { Reads (λ v. v) result fields.new (text_at is_bad len fields.old) }
{
    let from = fields.offset();
    let bytes = take(fields, len as u64)?;
    match first_bad(bytes) {
        Some(i) => Err(FrameFault::BadField(from + i as u64)),
        None => Ok(Bytes::from_vec(Vec::from_slice(alloc, bytes)?)),
    }
}

/// The shape whose canonical text this is.
#[tactic(auto, unfolding(crate::specs::Texts::canonical_shape))]
fn shape_of_text(alloc: Global, text: &[u8]) -> Result<Option<Shape>, FrameFault>
    ensures { MatchResult result (λ shape. shape ≡ canonical_shape text.now) (λ e. e ≡ OutOfMemory) }
{
    let shape = match read_shape(alloc, text) {
        Ok(shape) => shape,
        Err(ShapeFault::OutOfMemory) => return Err(FrameFault::OutOfMemory),
        Err(_) => return Ok(None),
    };
    let canonical = print_shape(alloc, &shape)?;
    if text == canonical.as_slice() {
        Ok(Some(shape))
    } else {
        Ok(None)
    }
}

/// The canonical text of a shape, in so many bytes. Another text of the shape is a bad field.
#[tactic(auto, unfolding(frame_fields::specs::Reading::decoded_at))]
pub fn shape_text(alloc: Global, fields: &mut Fields, len: u16) -> Result<Shape, FrameFault>
    ensures { Reads (λ s. s) result fields.new (decoded_at canonical_shape len fields.old) }
{
    let from = fields.offset();
    let bytes = take(fields, len as u64)?;
    match shape_of_text(alloc, bytes)? {
        Some(shape) => Ok(shape),
        None => Err(FrameFault::BadField(from)),
    }
}

/// What a shape keeps, and that its canonical text has 1 to 51,700 bytes. It does nothing.
pub fn see_shape(shape: &Shape)
    ensures is { IsShape shape.now }
    ensures some { 1 ≤ length (canonical shape.now) }
    ensures count { length (canonical shape.now) ≤ 51700 }
{
    let _ = &shape.schema;
}
