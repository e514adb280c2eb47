//! Laws of answer frames. Each function does nothing: its clauses are the laws.
ghost use Rattle.std.specs.Prelude.{◌≡◌, ◌↔◌, ◌++◌, ℕ, List, [], length, Ok};
ghost use Rattle.frame_fields.specs.Typed.{IsBytes};
ghost use Rattle.frame_fields.specs.Reading.{frame_at};
ghost use Rattle.answer_frames.specs.declared.answer.AnswerFrame.{AnswerFrame as Frame};
ghost use Rattle.answer_frames.specs.Reading.{fields_at};
ghost use Rattle.answer_frames.specs.Spelling.{AnswerOf, answer_length};

/// A frame has one spelling, and no frame's spelling is a proper prefix of another's.
pub fn answers_have_one_spelling()
    ensures one { (b1 b2 : List ℕ) (f : Frame) → AnswerOf b1 f → AnswerOf b2 f → b1 ≡ b2 }
    ensures prefix { (b1 b2 more : List ℕ) (f g : Frame) → AnswerOf b1 f → AnswerOf b2 g → b1 ++ more ≡ b2 → (f ≡ g) × (more ≡ []) }
{}

/// Bytes are read as an answer frame exactly where they spell it.
pub fn answers_are_read_where_spelled()
    ensures { (bytes : List ℕ) (f : Frame) → IsBytes bytes → (frame_at fields_at bytes ≡ Ok f) ↔ AnswerOf bytes f }
{}

/// An answer frame has 123 bytes, and 8 for each word.
pub fn answers_have_their_length()
    ensures { (bytes : List ℕ) (f : Frame) → AnswerOf bytes f → length bytes ≡ answer_length f }
{}
