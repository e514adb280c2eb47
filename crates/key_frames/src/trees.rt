//! The lengths of keys.
ghost use Rattle.std.specs.Prelude.{◌≡◌, ◌≤◌};
ghost use Rattle.key_frames.specs.Trees.{level_length as length_of_level, tree_length as length_of_tree};

use spl_words::{KeySpec, TreeKind};

/// The bytes of a level's part of a key.
fn level_length(kind: TreeKind) -> u64
    ensures { result ≡ length_of_level kind }
{
    match kind {
        TreeKind::Point => 17,
        TreeKind::Threshold => 33,
    }
}

/// The bytes of a key of that tree in a frame. A key has at most 128 levels.
pub fn tree_length(tree: &KeySpec) -> u64
    requires { tree.now.depth ≤ 128 }
    ensures { result ≡ length_of_tree tree.now }
{
    26 + level_length(tree.kind) * u64::from(tree.depth)
}
