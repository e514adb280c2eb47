//! Laws of rounds. Each function does nothing: its clauses are the laws.
ghost use Rattle.std.specs.Prelude.{◌≡◌, ℕ, ◌≤◌, ◌<◌, ◌^◌, List, length, None, Ok};
ghost use Rattle.std.specs.List.{AllByRecursion, position};
ghost use Rattle.spl_words.specs.declared.provider.Provider.{Provider as TheProvider};
ghost use Rattle.spl_words.specs.declared.provider.Provider.TheVariants.{Zero, One};
ghost use Rattle.spl_values.specs.Shapes.{SchemaParts, ShapeParts};
ghost use Rattle.spl_values.specs.Tables.{TableParts, IsTable};
ghost use Rattle.cell_merge.specs.TableRows.{rows_of};
ghost use Rattle.seed_expansion.specs.Expanders.{Meaning, IsPure};
ghost use Rattle.seed_expansion.specs.Toy.{toy};
ghost use Rattle.seed_expansion.specs.ChaChaExpansion.{chacha};
ghost use Rattle.query_grammar.specs.Queries.{QueryParts};
ghost use Rattle.query_tokens.specs.Printing.{canonical_text, IsWellFormed};
ghost use Rattle.query_reader.specs.declared.checked.Checked.{Checked as TheChecked};
ghost use Rattle.query_reader.specs.Accepted.{IsAccepted, IsCheckedFor};
ghost use Rattle.query_reader.specs.Params.{params_of_words, TakesCodes};
ghost use Rattle.sum_bounds.specs.Bounds.{sums_bounded};
ghost use Rattle.key_frames.specs.Frames.{FrameAllowed, KeyFrameOf};
ghost use Rattle.key_frames.specs.Notes.{NoteAllowed, NoteOf};
ghost use Rattle.key_frames.specs.declared.note.Note.{Note};
ghost use Rattle.key_frames.specs.NoteReading.{note_fields_at};
ghost use Rattle.key_frames.specs.Texts.{is_bad};
ghost use Rattle.frame_fields.specs.Reading.{frame_at};
ghost use Rattle.answer_frames.specs.declared.answer.AnswerFrame.{AnswerFrame};
ghost use Rattle.answer_frames.specs.Reading.{fields_at};
ghost use Rattle.answer_frames.specs.Spelling.{AnswerOf};
ghost use Rattle.private_plan.specs.Plans.{IsBuilt};
ghost use Rattle.private_plan.specs.Rounds.{first_round, secrets_in};
ghost use Rattle.session_model.specs.Answers.{answer_frame};
ghost use Rattle.session_model.specs.Sessions.{key_frame, key_bytes, note, note_bytes, round_answer, clear_text};
ghost use Rattle.client_rounds.specs.WellPut.{IsWellPut};
ghost use Rattle.client_rounds.specs.Expanding.{GivesSeeds};
ghost use Rattle.client_rounds.specs.Rounds.{round_length};
ghost use Rattle.client_rounds.specs.Finishing.{finished};

use judged_queries::laws::canonical_text_is_accepted;

/// The canonical text of a query has printable bytes alone, at least one; that of an accepted query has at most 4,096.
pub fn canonical_text_fits()
    ensures printable { (q : QueryParts) → IsWellFormed q → position is_bad (canonical_text q) ≡ None }
    ensures some { (q : QueryParts) → 1 ≤ length (canonical_text q) }
    ensures short { (q : QueryParts) (schema : SchemaParts) → IsAccepted q schema → length (canonical_text q) ≤ 4096 }
{}

/// A first round asks for 1 to 256 trees.
pub fn first_rounds_ask_for_few_trees()
    ensures { (checked : TheChecked) (shape : ShapeParts) (params : List ℕ) → IsWellPut checked shape params → (1 ≤ length (secrets_in checked shape params first_round)) × (length (secrets_in checked shape params first_round) ≤ 256) }
{}

/// A key frame of a first round has as many bytes as the plan tells, whichever words were drawn.
pub fn key_frames_are_as_long_as_planned()
    ensures { (e : Meaning) (p : TheProvider) (checked : TheChecked) (shape : ShapeParts) (params words bytes : List ℕ) → IsWellPut checked shape params
        → KeyFrameOf bytes (key_frame e p checked shape params words) → length bytes ≡ round_length checked shape }
{}

/// Parameters, whether given as words or as codes, are at most 255.
pub fn params_are_few()
    ensures words { (q : QueryParts) (schema : SchemaParts) (words : List (List ℕ)) (params : List ℕ) → params_of_words q schema words ≡ Ok params → length params ≤ 255 }
    ensures codes { (q : QueryParts) (schema : SchemaParts) (codes params : List ℕ) → TakesCodes (Ok params) q schema codes → length params ≤ 255 }
{}

/// The key frames and the note of a first round have values that may be written, whichever words were drawn.
pub fn round_may_be_written()
    ensures frame { (e : Meaning) (p : TheProvider) (checked : TheChecked) (shape : ShapeParts) (params words : List ℕ) → IsWellPut checked shape params → FrameAllowed (key_frame e p checked shape params words) }
    ensures note { (e : Meaning) (checked : TheChecked) (shape : ShapeParts) (params words : List ℕ) → IsWellPut checked shape params → length params ≤ 255 → NoteAllowed (note e checked shape params words) }
{}

/// The bytes of a first round are those of its key frames and of its note, where the expander gives seeds and the words
/// are words.
pub fn round_is_spelled()
    ensures frame { (e : Meaning) → GivesSeeds e → (p : TheProvider) (checked : TheChecked) (shape : ShapeParts) (params words : List ℕ) → IsWellPut checked shape params → AllByRecursion (λ w. w < 2 ^ 64) words
        → KeyFrameOf (key_bytes e p checked shape params words) (key_frame e p checked shape params words) }
    ensures note { (e : Meaning) (checked : TheChecked) (shape : ShapeParts) (params words : List ℕ) → IsWellPut checked shape params → length params ≤ 255 → AllByRecursion (λ w. w < 2 ^ 64) words
        → NoteOf (note_bytes e checked shape params words) (note e checked shape params words) }
{}

/// `ChaChaExpander` and `ToyExpander` give seeds.
pub fn expanders_give_seeds()
    ensures chacha { GivesSeeds chacha }
    ensures toy { GivesSeeds toy }
{}

/// From the bytes that spell a note or an answer it is read.
pub fn spelled_frames_are_read()
    ensures note { (bytes : List ℕ) (n : Note) → NoteOf bytes n → frame_at note_fields_at bytes ≡ Ok n }
    ensures answer { (bytes : List ℕ) (a : AnswerFrame) → AnswerOf bytes a → frame_at fields_at bytes ≡ Ok a }
{}

/// What a provider answers to its key frame of a first round is the spelling of an answer frame, where the plan is built.
pub fn answers_are_spelled()
    ensures { (e : Meaning) (p : TheProvider) (checked : TheChecked) (table : TableParts) (params drawn : List ℕ) → IsTable table → IsWellPut checked table.shape params → IsBuilt checked table.shape.schema.columns → AllByRecursion (λ w. w < 2 ^ 64) drawn
        → AnswerOf (round_answer e p checked table params drawn) (answer_frame e p (key_bytes e p checked table.shape params drawn) (key_frame e p checked table.shape params drawn) checked table) }
{}

/// A session ends with the clear answer: for every pure expander, an accepted query whose plan is built, parameters that
/// some words gave, drawn words and a table of the shape within its sum bounds, the note of the session and what each
/// provider answers to its key frame over that table come to the text of the clear answer, in either order.
pub fn sessions_end_with_the_clear_answer()
    ensures in_order { (e : Meaning) → IsPure e → (checked : TheChecked) (table : TableParts) (params drawn : List ℕ) (texts : List (List ℕ)) → IsTable table → IsWellFormed checked.query → IsCheckedFor checked table.shape.schema
        → IsBuilt checked table.shape.schema.columns → params_of_words checked.query table.shape.schema texts ≡ Ok params → sums_bounded table checked.spec.items ≡ Ok tt → AllByRecursion (λ w. w < 2 ^ 64) drawn
        → finished (note_bytes e checked table.shape params drawn) (round_answer e Zero checked table params drawn) (round_answer e One checked table params drawn) ≡ Ok (clear_text checked params table) }
    ensures exchanged { (e : Meaning) → IsPure e → (checked : TheChecked) (table : TableParts) (params drawn : List ℕ) (texts : List (List ℕ)) → IsTable table → IsWellFormed checked.query → IsCheckedFor checked table.shape.schema
        → IsBuilt checked table.shape.schema.columns → params_of_words checked.query table.shape.schema texts ≡ Ok params → sums_bounded table checked.spec.items ≡ Ok tt → AllByRecursion (λ w. w < 2 ^ 64) drawn
        → finished (note_bytes e checked table.shape params drawn) (round_answer e One checked table params drawn) (round_answer e Zero checked table params drawn) ≡ Ok (clear_text checked params table) }
{
    canonical_text_is_accepted();
}
