//! Writing a key frame.
ghost use Rattle.std.specs.Prelude.{◌≡◌, length, Ok, OnOk, IfOk, codes};
ghost use Rattle.frame_fields.specs.Pieces.{Wrote};
ghost use Rattle.frame_fields.specs.Reading.{frame_at};
ghost use Rattle.key_frames.specs.FrameReading.{frame_fields_at};
ghost use Rattle.key_frames.specs.Frames.{FrameAllowed, FrameTyped, KeyFrameOf, frame_body, frame_length};

use crate::frame::KeyFrame;
use crate::key_writing::put_keys;
use crate::texts::see_shape;
use frame_fields::{
    digest_of, put_bytes, put_provider, put8, put16, put128, see_number, see_slice,
};
use spl_values::print_shape;
use std::alloc::{AllocError, Global};

/// Adds the four bytes of a key frame's kind.
fn put_magic(out: &mut Vec<u8>) -> Result<(), AllocError>
    ensures { OnOk result (Wrote out.old.items (codes "SPLK") out.new.items) }
{
    put_bytes(out, b"SPLK".as_slice())?;
    Ok(())
}

/// Adds the fields before the digest, and says what the types of the fields say.
fn put_fields(alloc: Global, out: &mut Vec<u8>, frame: &KeyFrame) -> Result<(), AllocError>
    requires { FrameAllowed frame.now }
    ensures written { OnOk result (Wrote out.old.items (frame_body frame.now) out.new.items) }
    ensures typed { OnOk result (FrameTyped frame.now) }
{
    see_number(frame.session);
    see_shape(&frame.shape);
    put_magic(out)?;
    put8(out, 1)?;
    put8(out, frame.round as u8)?;
    put_provider(out, frame.provider)?;
    put128(out, frame.session)?;
    let query = frame.query.as_slice();
    see_slice(query);
    put16(out, query.len() as u16)?;
    put_bytes(out, query)?;
    let shape = print_shape(alloc, &frame.shape)?;
    let text = shape.as_slice();
    put16(out, text.len() as u16)?;
    put_bytes(out, text)?;
    let keys = frame.keys.as_slice();
    put16(out, keys.len() as u16)?;
    put_keys(out, keys)?;
    Ok(())
}

/// The frame's bytes, in their one spelling, which reads as the frame. The round is 1 or 2, the query's text has 1 to 4,096 printable ASCII
/// bytes, and there are 1 to 512 keys, each of 1 to 128 levels.
#[tactic(auto, using(crate::proofs::FrameLaws::frame_read, crate::proofs::FrameLaws::frame_sized))]
pub fn write_key_frame(alloc: Global, frame: &KeyFrame) -> Result<Vec<u8>, AllocError>
    requires { FrameAllowed frame.now }
    ensures spelled { IfOk result (λ v. KeyFrameOf v.items frame.now) }
    ensures read { IfOk result (λ v. frame_at frame_fields_at v.items ≡ Ok frame.now) }
    ensures len { IfOk result (λ v. length v.items ≡ frame_length frame.now) }
{
    let mut out = Vec::new(alloc);
    put_fields(alloc, &mut out, frame)?;
    let sum = digest_of(&out);
    out.extend_from_slice(&sum)?;
    Ok(out)
}
