//! What is public of a tree, and what it hides.
ghost use Rattle.std.specs.Prelude.{◌≡◌};

use std::marker::Model;

/// The kind of a tree: where its function is `beta`. At all other numbers it is 0.
#[derive(Clone, Copy, Debug, PartialEq, Eq)]
pub enum TreeKind {
    /// At `alpha` alone.
    Point,
    /// At each number up to `alpha`.
    Threshold,
}

/// What is public of a tree.
#[derive(Clone, Copy, Debug, PartialEq, Eq)]
pub struct KeySpec {
    pub kind: TreeKind,
    /// The bits of its numbers, 1 to 128.
    pub depth: u32,
}

/// The secret of a tree. `kind` and `depth` are public, `alpha` and `beta` are not.
#[derive(Clone, Copy, Debug, PartialEq, Eq)]
pub struct TreeSecret {
    /// Where the tree's function is `beta`.
    pub kind: TreeKind,
    /// The bits of the numbers that the tree's function takes, 1 to 128.
    pub depth: u32,
    /// Below 2^`depth`.
    pub alpha: u128,
    /// What the function is there.
    pub beta: u64,
}

impl Model for TreeSecret {
    ghost use Rattle.std.specs.Prelude.{◌≤◌, ◌<◌, ◌^◌};
    ghost use Rattle.spl_words.specs.Secrets.{Secret};

    ghost Value = { Secret };

    ghost view = { λ s. record { kind = s.kind; depth = s.depth; alpha = s.alpha; beta = s.beta } };

    ghost invariant = { λ s. (1 ≤ s.depth) × (s.depth ≤ 128) × (s.alpha < 2 ^ s.depth) };

    ghost inverse = { λ s. record { kind = s.kind; depth = s.depth; alpha = s.alpha; beta = s.beta } };
}
