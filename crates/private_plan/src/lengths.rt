//! How long key frames are.
ghost use Rattle.std.specs.Prelude.{◌≡◌, ◌≤◌, ◌+◌, ◌*◌, length, All};
ghost use Rattle.std.specs.List.{sum_by};
ghost use Rattle.key_frames.specs.Trees.{tree_length as length_of_tree};
ghost use Rattle.private_plan.specs.Lengths.{trees_in as trees_of_round, frame_length as length_of_frame};

use crate::plans::Plan;
use crate::rounds::trees_in;
use key_frames::tree_length;
use spl_words::KeySpec;

/// The bytes of some keys in a frame.
fn keys_length(trees: &[KeySpec]) -> u64
    requires few { length trees.now ≤ 512 }
    requires low { All (λ tree. tree.depth ≤ 128) trees.now }
    ensures length { result ≡ sum_by length_of_tree trees.now }
    ensures short { result ≤ 512 * 4250 }
{
    let mut length = 0;
    for tree in trees {
        length += tree_length(tree);
    }
    length
}

/// The bytes of a round's key frame, from the lengths of its query text and its shape text, which are
/// at most 65,535. A round has at most 512 keys, each of at most 128 levels.
pub fn frame_length(plan: &Plan, round: u32, query: u64, shape: u64) -> u64
    requires query { query ≤ 65535 }
    requires shape { shape ≤ 65535 }
    requires few { length (trees_of_round plan.now round) ≤ 512 }
    requires low { All (λ tree. tree.depth ≤ 128) (trees_of_round plan.now round) }
    ensures { result ≡ length_of_frame plan.now round query shape }
{
    61 + query + shape + keys_length(trees_in(plan, round))
}
