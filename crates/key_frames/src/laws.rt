//! Laws of keys, of key frames and of notes. Each function does nothing: its clauses are the laws.
ghost use Rattle.std.specs.Prelude.{◌≡◌, ◌↔◌, ◌++◌, ◌<◌, ◌^◌, ℕ, List, [], length, map, Ok};
ghost use Rattle.std.specs.List.{AllByRecursion};
ghost use Rattle.spl_words.specs.Words.{plus};
ghost use Rattle.spl_words.specs.Folds.{fold_word};
ghost use Rattle.spl_words.specs.Secrets.{Secret, IsSecret, secret_tree, secrets_value};
ghost use Rattle.spl_words.specs.declared.provider.Provider.{Provider};
ghost use Rattle.spl_words.specs.declared.provider.Provider.TheVariants.{Zero, One};
ghost use Rattle.seed_expansion.specs.Expanders.{Meaning, IsPure};
ghost use Rattle.frame_fields.specs.Typed.{IsBytes};
ghost use Rattle.frame_fields.specs.Reading.{frame_at};
ghost use Rattle.key_frames.specs.declared.frame.KeyFrame.{KeyFrame as Frame};
ghost use Rattle.key_frames.specs.declared.note.Note.{Note as Noted};
ghost use Rattle.key_frames.specs.FrameReading.{frame_fields_at};
ghost use Rattle.key_frames.specs.Frames.{KeyFrameOf, frame_length};
ghost use Rattle.key_frames.specs.Trees.{key_tree, key_list, key_shares};
ghost use Rattle.key_frames.specs.NoteReading.{note_fields_at};
ghost use Rattle.key_frames.specs.Notes.{NoteOf, note_length};

/// A key frame has one spelling, and no frame's spelling is a proper prefix of another's.
pub fn key_frames_have_one_spelling()
    ensures one { (b1 b2 : List ℕ) (f : Frame) → KeyFrameOf b1 f → KeyFrameOf b2 f → b1 ≡ b2 }
    ensures prefix { (b1 b2 more : List ℕ) (f g : Frame) → KeyFrameOf b1 f → KeyFrameOf b2 g → b1 ++ more ≡ b2 → (f ≡ g) × (more ≡ []) }
{}

/// A note has one spelling, and no note's spelling is a proper prefix of another's.
pub fn notes_have_one_spelling()
    ensures one { (b1 b2 : List ℕ) (n : Noted) → NoteOf b1 n → NoteOf b2 n → b1 ≡ b2 }
    ensures prefix { (b1 b2 more : List ℕ) (n o : Noted) → NoteOf b1 n → NoteOf b2 o → b1 ++ more ≡ b2 → (n ≡ o) × (more ≡ []) }
{}

/// Bytes are read as a key frame, and as a note, exactly where they spell it.
pub fn frames_are_read_where_spelled()
    ensures frame { (bytes : List ℕ) (f : Frame) → IsBytes bytes → (frame_at frame_fields_at bytes ≡ Ok f) ↔ KeyFrameOf bytes f }
    ensures note { (bytes : List ℕ) (n : Noted) → IsBytes bytes → (frame_at note_fields_at bytes ≡ Ok n) ↔ NoteOf bytes n }
{}

/// A key frame has 61 bytes, those of its two texts and of its keys; a note has 155, those of its two texts and 16 for
/// each parameter.
pub fn frames_have_their_length()
    ensures frame { (bytes : List ℕ) (f : Frame) → KeyFrameOf bytes f → length bytes ≡ frame_length f }
    ensures note { (bytes : List ℕ) (n : Noted) → NoteOf bytes n → length bytes ≡ note_length n }
{}

/// The keys of some secrets are keys of the secrets' trees, in the same order: of their kinds and depths.
pub fn keys_are_of_their_secrets_trees()
    ensures { (e : Meaning) (p : Provider) (tree : ℕ) (secrets : List Secret) (roots : List (ℕ × ℕ)) → length roots ≡ length secrets → map key_tree (key_list e p tree secrets roots) ≡ map secret_tree secrets }
{}

/// The words of both providers for one fold add, modulo 2^64, to the fold of what the secrets' functions add to: for
/// every pure expander, roots and entries whose numbers have the bits of the trees.
pub fn both_words_of_a_fold_add()
    ensures { (e : Meaning) → IsPure e → (tree : ℕ) (secrets : List Secret) (roots : List (ℕ × ℕ)) (entries : List (ℕ × List ℕ)) (k : ℕ) → length roots ≡ length secrets
        → AllByRecursion IsSecret secrets → AllByRecursion (λ (p : ℕ × List ℕ). AllByRecursion (λ (s : Secret). p.0 < 2 ^ s.depth) secrets) entries
        → plus (fold_word (key_shares e Zero tree (key_list e Zero tree secrets roots)) entries k) (fold_word (key_shares e One tree (key_list e One tree secrets roots)) entries k)
        ≡ fold_word (secrets_value secrets) entries k }
{}
