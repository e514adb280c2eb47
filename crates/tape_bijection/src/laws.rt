//! Laws of the mapped tape. Each function does nothing: its clauses are the laws.
ghost use Rattle.std.specs.Prelude.{◌≡◌, ℕ, List, drop};
ghost use Rattle.spl_words.specs.declared.provider.Provider.{Provider};
ghost use Rattle.spl_words.specs.Secrets.{Secret};
ghost use Rattle.seed_expansion.specs.declared.nodes.Place.{Place};
ghost use Rattle.seed_expansion.specs.Expanders.{Meaning, IsTape};
ghost use Rattle.seed_expansion.specs.Tapes.{HasWords};
ghost use Rattle.key_frames.specs.Trees.{key_list};
ghost use Rattle.tape_bijection.specs.MappedLists.{SameTrees, mapped_list};

/// A provider has the same keys under the first secrets with a tape and under the second secrets, of the same trees,
/// with the mapped tape: all of them, and those from the tree of any number on.
pub fn kept_keys_are_the_same()
    ensures all { (e : Meaning) → IsTape e → (p : Provider) (from to : List Secret) → SameTrees from to → (roots : List (ℕ × ℕ))
        → key_list (mapped_list e p from to) p 0 to roots ≡ key_list e p 0 from roots }
    ensures later { (e : Meaning) → IsTape e → (p : Provider) (from to : List Secret) → SameTrees from to → (n : ℕ) (roots : List (ℕ × ℕ))
        → key_list (mapped_list e p from to) p n (drop n to) roots ≡ key_list e p n (drop n from) roots }
{}

/// The map from the second secrets to the first takes the map from the first to the second back. So it is one to one, and
/// each tape of words is the map of one.
pub fn map_is_one_to_one()
    ensures inverse { (e : Meaning) → IsTape e → HasWords e → (p : Provider) (from to : List Secret) → SameTrees from to
        → mapped_list (mapped_list e p from to) p to from ≡ e }
    ensures one { (e e2 : Meaning) → IsTape e → HasWords e → IsTape e2 → HasWords e2 → (p : Provider) (from to : List Secret) → SameTrees from to
        → mapped_list e p from to ≡ mapped_list e2 p from to → e ≡ e2 }
{}

/// The map of a tape is a tape, and of a tape of words one of words.
pub fn mapped_tapes_are_tapes()
    ensures tape { (e : Meaning) → IsTape e → (p : Provider) (from to : List Secret) → IsTape (mapped_list e p from to) }
    ensures words { (e : Meaning) → HasWords e → (p : Provider) (from to : List Secret) → HasWords (mapped_list e p from to) }
{}

/// The kept provider's blocks and leaf words stay.
pub fn kept_entries_stay()
    ensures blocks { (e : Meaning) (p : Provider) (from to : List Secret) (q : Place) (seed : ℕ) → q.provider ≡ p
        → (mapped_list e p from to).block q seed ≡ e.block q seed }
    ensures leaves { (e : Meaning) (p : Provider) (from to : List Secret) (q : Place) (seed : ℕ) → q.provider ≡ p
        → (mapped_list e p from to).leaf q seed ≡ e.leaf q seed }
{}
