//! Laws of the expanders.
ghost use Rattle.seed_expansion.specs.Expanders.{IsPure, IsTape};
ghost use Rattle.seed_expansion.specs.Toy.{toy};
ghost use Rattle.seed_expansion.specs.ChaChaExpansion.{chacha};
ghost use Rattle.seed_expansion.specs.Tapes.{Entries, tape_meaning};

/// `ToyExpander` is pure.
pub fn toy_is_pure()
    ensures { IsPure toy }
{}

/// `ChaChaExpander` is pure.
pub fn chacha_is_pure()
    ensures { IsPure chacha }
{}

/// `TapeExpander` is a tape: it reads no seed.
pub fn tape_expander_is_a_tape()
    ensures { (t : Entries) → IsTape (tape_meaning t) }
{}
