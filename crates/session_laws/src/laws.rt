//! Laws of whole sessions. Each function does nothing: its clauses are the laws.
ghost use Rattle.std.specs.Prelude.{◌≡◌, ℕ, ◌<◌, ◌^◌, List, Ok};
ghost use Rattle.std.specs.List.{AllByRecursion};
ghost use Rattle.spl_words.specs.declared.provider.Provider.{Provider};
ghost use Rattle.spl_words.specs.declared.provider.Provider.TheVariants.{Zero, One};
ghost use Rattle.spl_values.specs.Tables.{TableParts, IsTable};
ghost use Rattle.seed_expansion.specs.Expanders.{Meaning, IsPure};
ghost use Rattle.query_reader.specs.declared.checked.Checked.{Checked};
ghost use Rattle.query_reader.specs.Accepted.{IsCheckedFor};
ghost use Rattle.private_plan.specs.Plans.{IsBuilt};
ghost use Rattle.key_frames.specs.Frames.{KeyFrameOf};
ghost use Rattle.answer_frames.specs.Spelling.{AnswerOf};
ghost use Rattle.session_model.specs.Answers.{answer_bytes, answer_frame};
ghost use Rattle.session_model.specs.Sessions.{key_frame};
ghost use Rattle.client_rounds.specs.WellPut.{IsWellPut};
ghost use Rattle.client_rounds.specs.Expanding.{GivesSeeds};
ghost use Rattle.client_rounds.specs.Finishing.{finished};
ghost use Rattle.provider_core.specs.Answering.{answered};
ghost use Rattle.sum_bounds.specs.Bounds.{sums_bounded};
ghost use Rattle.session_laws.specs.OwnSessions.{Session, IsSession, IsSpelled, IsAnswer, own_note, own_text};

use client_rounds::laws::{params_are_few, round_is_spelled};
use judged_queries::laws::canonical_text_is_accepted;

/// A provider answers its key frame of a round, over a table of the shape that is asked whose sums are within their
/// bounds: for every expander, accepted query whose plan is built, parameters and drawn words, nothing refuses the
/// bytes of the frame, and what is answered is the spelling of an answer frame.
pub fn own_keys_are_answered()
    ensures answered { (e : Meaning) (p : Provider) (checked : Checked) (table : TableParts) (params words bytes : List ℕ) → IsTable table → IsWellPut checked table.shape params
        → IsBuilt checked table.shape.schema.columns → sums_bounded table checked.spec.items ≡ Ok tt → KeyFrameOf bytes (key_frame e p checked table.shape params words)
        → answered e p bytes table ≡ Ok (answer_bytes e p bytes (key_frame e p checked table.shape params words) checked table) }
    ensures spelled { (e : Meaning) (p : Provider) (checked : Checked) (table : TableParts) (params words bytes : List ℕ) → IsTable table → IsWellPut checked table.shape params
        → IsBuilt checked table.shape.schema.columns → KeyFrameOf bytes (key_frame e p checked table.shape params words)
        → AnswerOf (answer_bytes e p bytes (key_frame e p checked table.shape params words) checked table) (answer_frame e p bytes (key_frame e p checked table.shape params words) checked table) }
{
    canonical_text_is_accepted();
}

/// The key files and the note of a session spell their frames, where the expander gives seeds and the drawn words are
/// words.
pub fn own_sessions_are_spelled()
    ensures { (e : Meaning) → GivesSeeds e → (s : Session) → IsSession s → AllByRecursion (λ w. w < 2 ^ 64) s.words → IsSpelled e s }
{
    round_is_spelled();
    params_are_few();
}

/// A session ends with the clear answer: for every pure expander, the note of the session and
/// what both providers answer to the bytes of their key frames over that table come to the text of the clear answer, in
/// either order.
pub fn own_sessions_end()
    ensures in_order { (e : Meaning) → IsPure e → (s : Session) (zero one : List ℕ) → IsSession s → IsSpelled e s → IsAnswer e s Zero zero → IsAnswer e s One one
        → finished (own_note e s) zero one ≡ Ok (own_text s) }
    ensures exchanged { (e : Meaning) → IsPure e → (s : Session) (zero one : List ℕ) → IsSession s → IsSpelled e s → IsAnswer e s Zero zero → IsAnswer e s One one
        → finished (own_note e s) one zero ≡ Ok (own_text s) }
{
    canonical_text_is_accepted();
}
