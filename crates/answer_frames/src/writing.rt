//! Writing an answer frame.
ghost use Rattle.std.specs.Prelude.{◌≡◌, ◌++◌, ◌+◌, ◌*◌, ◌≤◌, length, take, IfOk, Ok};
ghost use Rattle.frame_fields.specs.Reading.{frame_at};
ghost use Rattle.answer_frames.specs.Reading.{fields_at};
ghost use Rattle.answer_frames.specs.Spelling.{Allowed, Typed, AnswerOf, answer_length, body, spelling};

use crate::answer::AnswerFrame;
use frame_fields::{digest_of, provider_byte_of, put, see_bytes, see_number, see_words};
use std::alloc::{AllocError, Global};

/// Writes the fields before the digest, and answers where they end.
fn fill_fields(frame: &AnswerFrame, out: &mut [u8]) -> usize
    requires len { length out.old ≡ 123 + 8 * length frame.now.words }
    requires allowed { Allowed frame.now }
    ensures at { result ≡ 91 + 8 * length frame.now.words }
    ensures front { take result out.new ≡ body frame.now }
    ensures len { length out.new ≡ length out.old }
{
    let words = frame.words.as_slice();
    let mut at = put(out, 0, b"SPLA".as_slice());
    at = put(
        out,
        at,
        &[1, frame.round as u8, provider_byte_of(frame.provider)],
    );
    at = put(out, at, &frame.session.to_be_bytes());
    at = put(out, at, &frame.key);
    at = put(out, at, &frame.table);
    at = put(out, at, &(words.len() as u32).to_be_bytes());
    for word in words {
        at = put(out, at, &word.to_be_bytes());
    }
    at
}

/// Each number of a frame is one of its type. It does nothing.
fn see_types(frame: &AnswerFrame)
    ensures { Typed frame.now }
{
    see_number(frame.session);
    see_bytes(&frame.key);
    see_bytes(&frame.table);
    see_words(frame.words.as_slice());
}

/// Leaves in `out` the bytes that `write_answer` gives. `out` has 123 bytes, and 8 for each word. Takes no memory.
pub fn fill_answer(frame: &AnswerFrame, out: &mut [u8])
    requires allowed { Allowed frame.now }
    requires len { length out.old ≡ answer_length frame.now }
    ensures spelled { out.new ≡ spelling frame.now }
    ensures len { length out.new ≡ length out.old }
{
    let at = fill_fields(frame, out);
    let sum = digest_of(&out[..at]);
    put(out, at, &sum);
}

/// The frame's bytes, in their one spelling, which reads as the frame. The round is 1 or 2, and there are 1 to 65,536
/// words.
pub fn write_answer(alloc: Global, frame: &AnswerFrame) -> Result<Vec<u8>, AllocError>
    requires { Allowed frame.now }
    ensures spelled { IfOk result (λ v. AnswerOf v.items frame.now) }
    ensures read { IfOk result (λ v. frame_at fields_at v.items ≡ Ok frame.now) }
    ensures len { IfOk result (λ v. length v.items ≡ answer_length frame.now) }
{
    see_types(frame);
    let len = 123 + 8 * frame.words.as_slice().len();
    let mut bytes = vec![in alloc; 0u8; len]?;
    fill_answer(frame, &mut bytes);
    Ok(bytes)
}
