//! Writing a note.
ghost use Rattle.std.specs.Prelude.{◌≡◌, ◌<◌, ◌^◌, length, Ok, OnOk, IfOk, codes};
ghost use Rattle.std.specs.List.{flat_map, AllByRecursion};
ghost use Rattle.std.specs.Int.{w128, to_be_bytes};
ghost use Rattle.frame_fields.specs.Pieces.{Wrote};
ghost use Rattle.frame_fields.specs.Reading.{frame_at};
ghost use Rattle.key_frames.specs.NoteReading.{note_fields_at};
ghost use Rattle.key_frames.specs.Notes.{NoteAllowed, NoteTyped, NoteOf, note_body, note_length};

use crate::note::Note;
use crate::texts::see_shape;
use frame_fields::{digest_of, put_bytes, put8, put16, put128, see_bytes, see_number, see_slice};
use spl_values::print_shape;
use std::alloc::{AllocError, Global};

/// Adds the four bytes of a note's kind.
fn put_magic(out: &mut Vec<u8>) -> Result<(), AllocError>
    ensures { OnOk result (Wrote out.old.items (codes "SPLN") out.new.items) }
{
    put_bytes(out, b"SPLN".as_slice())?;
    Ok(())
}

/// Adds the codes of parameters, one behind the other.
fn put_params(out: &mut Vec<u8>, params: &[u128]) -> Result<(), AllocError>
    ensures { OnOk result (Wrote out.old.items (flat_map (to_be_bytes w128) params.now) out.new.items) }
{
    for param in params {
        put128(out, *param)?;
    }
    Ok(())
}

/// Codes are below 2^128. It does nothing.
fn see_params(params: &[u128])
    ensures { AllByRecursion (λ c. c < 2 ^ 128) params.now }
{}

/// Each number of a note is one of its type. It does nothing.
fn see_types(note: &Note)
    ensures { NoteTyped note.now }
{
    see_number(note.session);
    see_slice(note.query.as_slice());
    see_shape(&note.shape);
    see_params(note.params.as_slice());
    see_bytes(&note.key_zero);
    see_bytes(&note.key_one);
    see_bytes(&note.table);
}

/// Adds the fields before the digest.
fn put_fields(alloc: Global, out: &mut Vec<u8>, note: &Note) -> Result<(), AllocError>
    requires { NoteAllowed note.now }
    ensures { OnOk result (Wrote out.old.items (note_body note.now) out.new.items) }
{
    see_shape(&note.shape);
    put_magic(out)?;
    put8(out, 1)?;
    put8(out, note.round as u8)?;
    put128(out, note.session)?;
    let query = note.query.as_slice();
    put16(out, query.len() as u16)?;
    put_bytes(out, query)?;
    let shape = print_shape(alloc, &note.shape)?;
    let text = shape.as_slice();
    put16(out, text.len() as u16)?;
    put_bytes(out, text)?;
    let params = note.params.as_slice();
    put8(out, params.len() as u8)?;
    put_params(out, params)?;
    put_bytes(out, &note.key_zero)?;
    put_bytes(out, &note.key_one)?;
    put_bytes(out, &note.table)?;
    Ok(())
}

/// The note's bytes, in their one spelling, which reads as the note. The round is 1 or 2, the query's text has 1 to
/// 4,096 printable ASCII bytes, there are 1 to 255 parameters, and in round 1 the table's digest is only zeros.
#[tactic(auto, using(crate::proofs::NoteLaws::note_read, crate::proofs::NoteLaws::note_sized))]
pub fn write_note(alloc: Global, note: &Note) -> Result<Vec<u8>, AllocError>
    requires { NoteAllowed note.now }
    ensures spelled { IfOk result (λ v. NoteOf v.items note.now) }
    ensures read { IfOk result (λ v. frame_at note_fields_at v.items ≡ Ok note.now) }
    ensures len { IfOk result (λ v. length v.items ≡ note_length note.now) }
{
    see_types(note);
    let mut out = Vec::new(alloc);
    put_fields(alloc, &mut out, note)?;
    let sum = digest_of(&out);
    out.extend_from_slice(&sum)?;
    Ok(out)
}
