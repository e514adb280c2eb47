//! Reading a note.
ghost use Rattle.std.specs.Prelude.{◌≡◌, IfOk, Ok};
ghost use Rattle.std.specs.Int.{w128};
ghost use Rattle.spl_words.specs.Results.{Gives};
ghost use Rattle.spl_words.specs.declared.fault.FrameFault.TheVariants.{OutOfMemory};
ghost use Rattle.frame_fields.specs.Reading.{Reads, ReadsExactly, many_at, number_at, frame_at};
ghost use Rattle.key_frames.specs.declared.note.Note.{Note as Noted};
ghost use Rattle.key_frames.specs.NoteReading.{table_at, note_fields_at};
ghost use Rattle.key_frames.specs.Notes.{NoteOf};

use crate::note::Note;
use crate::texts::{query_text, shape_text};
use frame_fields::{be128, digest, magic, start, take32, version, within, within16};
use spl_words::{Fields, FrameFault, Numbers};
use std::alloc::Global;

/// The codes of so many parameters.
fn params(alloc: Global, fields: &mut Fields, count: u8) -> Result<Numbers, FrameFault>
    ensures { Reads (λ v. v) result fields.new (many_at (number_at w128) count fields.old) }
{
    let mut params = Numbers::new(alloc);
    for _ in 0..count {
        let param = be128(fields)?;
        params.push(param)?;
    }
    Ok(params)
}

/// The digest of the table. In round 1 no table is known yet, and it is only zeros.
#[tactic(auto, unfolding(crate::specs::NoteReading::table_at))]
fn table(fields: &mut Fields, round: u8) -> Result<[u8; 32], FrameFault>
    ensures { ReadsExactly (λ t. t) result fields.new (table_at round fields.old) }
{
    let from = fields.offset();
    let digest = take32(fields)?;
    if round == 2 || digest == [0; 32] {
        Ok(digest)
    } else {
        Err(FrameFault::BadField(from))
    }
}

/// The fields before the digest.
#[tactic(auto, unfolding(crate::specs::NoteReading::note_fields_at))]
fn fields_of(alloc: Global, fields: &mut Fields) -> Result<Note, FrameFault>
    ensures { Reads (λ n. n) result fields.new (note_fields_at fields.old) }
{
    magic(fields, b"SPLN".as_slice())?;
    version(fields, 1)?;
    let round = within(fields, 1, 2)?;
    let session = be128(fields)?;
    let query_len = within16(fields, 1, 4096)?;
    let query = query_text(alloc, fields, query_len)?;
    let shape_len = within16(fields, 1, 65535)?;
    let shape = shape_text(alloc, fields, shape_len)?;
    let count = within(fields, 1, 255)?;
    let params = params(alloc, fields, count)?;
    let key_zero = take32(fields)?;
    let key_one = take32(fields)?;
    let table = table(fields, round)?;
    Ok(Note {
        session,
        round: round as u32,
        query,
        shape,
        params,
        key_zero,
        key_one,
        table,
    })
}

/// The fields and the digest, and nothing behind them.
#[tactic(auto, unfolding(frame_fields::specs::Reading::frame_at))]
fn note_of(alloc: Global, bytes: &[u8]) -> Result<Note, FrameFault>
    ensures { Gives OutOfMemory (λ n. n) result (frame_at note_fields_at bytes.now) }
{
    let mut fields = start(bytes)?;
    let note = fields_of(alloc, &mut fields)?;
    digest(&mut fields)?;
    Ok(note)
}

/// The note that the bytes spell, or the first fault from the front: bytes that spell a note are read, and only those.
pub fn read_note(alloc: Global, bytes: &[u8]) -> Result<Note, FrameFault>
    ensures found { IfOk result (λ n. NoteOf bytes.now n) }
    ensures only { (n : Noted) → NoteOf bytes.now n → Gives OutOfMemory (λ x. x) result (Ok n) }
    ensures fault { Gives OutOfMemory (λ n. n) result (frame_at note_fields_at bytes.now) }
{
    note_of(alloc, bytes)
}
