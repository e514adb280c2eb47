//! The map of all trees of two lists of secrets.
ghost use Rattle.std.specs.Prelude.{◌≡◌, ◌≤◌, ◌^◌, ℕ, List, OnOk, drop, length, is_some};
ghost use Rattle.seed_expansion.specs.declared.nodes.Place.{Place};
ghost use Rattle.seed_expansion.specs.Tapes.{block_at, leaf_at, tape_meaning};
ghost use Rattle.key_frames.specs.Trees.{key_list};
ghost use Rattle.tape_bijection.specs.MappedLists.{SameTrees, mapped_list};
ghost use Rattle.tape_bijection.specs.Entered.{has_block_in, has_leaf_in};

use crate::trees::map_tree;
use seed_expansion::Tape;
use spl_words::{Provider, TreeSecret};
use std::alloc::{AllocError, Global};

/// Maps a tape from the first secrets to the second, which are of the same trees: afterwards the
/// provider has the keys under the second secrets that it had under the first. The i-th secrets are
/// those of tree i, and there are at most 2^32 of them. The tape keeps an allocator of its own.
///
/// # Errors
///
/// Only for want of memory. The tape is then partly changed, and of no use.
pub fn map_tape(
    _alloc: Global,
    tape: &mut Tape,
    provider: Provider,
    from: &[TreeSecret],
    to: &[TreeSecret],
) -> Result<(), AllocError>
    requires count { length from.now ≤ 2 ^ 32 }
    requires trees { SameTrees from.now to.now }
    ensures mapped { OnOk result (tape_meaning tape.new ≡ mapped_list (tape_meaning tape.old) provider from.now to.now) }
    // The provider's keys are the same, from the tree of any number on.
    ensures keys { OnOk result ((n : ℕ) (roots : List (ℕ × ℕ)) → key_list (tape_meaning tape.new) provider n (drop n to.now) roots ≡ key_list (tape_meaning tape.old) provider n (drop n from.now) roots) }
    // An entry stands where one stood, and at the other provider's places on both paths of each tree.
    ensures blocks { OnOk result ((q : Place) → is_some (block_at tape.new q) ≡ has_block_in (length from.now) tape.old provider from.now to.now q) }
    ensures leaves { OnOk result ((q : Place) → is_some (leaf_at tape.new q) ≡ has_leaf_in (length from.now) tape.old provider from.now to.now q) }
{
    for (tree, secret) in from.iter().enumerate() {
        map_tree(tape, provider, tree as u32, secret, &to[tree])?;
    }
    Ok(())
}
