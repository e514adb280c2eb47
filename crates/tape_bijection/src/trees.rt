//! The map of one tree.
ghost use Rattle.std.specs.Prelude.{◌≡◌, ℕ, OnOk, IfOk, is_some};
ghost use Rattle.seed_expansion.specs.declared.nodes.Place.{Place};
ghost use Rattle.seed_expansion.specs.Tapes.{block_at, leaf_at, or_no_block, tape_meaning};
ghost use Rattle.seed_expansion.specs.Walk.{path};
ghost use Rattle.tape_bijection.specs.Moves.{kept_bit};
ghost use Rattle.tape_bijection.specs.Mapped.{mapped_blocks};
ghost use Rattle.tape_bijection.specs.MappedLists.{mapped_tree};
ghost use Rattle.tape_bijection.specs.Entered.{has_block_after, has_leaf_after};

use crate::exchange::{block_on, exchange_blocks, exchange_leaves, leaf_on};
use crate::moves::{Move, moved_of, moved_word_of};
use interval_keys::level_for;
use seed_expansion::{Node, Tape, child_of, goes_right, last_word, place_of, root_of};
use spl_words::{Provider, TreeSecret, other};
use std::alloc::AllocError;

/// The nodes at the end of both paths.
#[derive(Clone, Copy, Debug)]
struct Ends {
    /// Those of both providers on the path of the first number.
    zero: Node,
    one: Node,
    /// That of the kept provider on the path of the second.
    kept: Node,
}

/// Maps the levels of a tree, and gives the nodes below them.
fn map_levels(
    tape: &mut Tape,
    provider: Provider,
    tree: u32,
    from: &TreeSecret,
    to: &TreeSecret,
) -> Result<Ends, AllocError>
    requires depth { to.now.depth ≡ from.now.depth }
    ensures blocks { OnOk result ((q : Place) → or_no_block (block_at tape.new q) ≡ mapped_blocks from.now.kind (tape_meaning tape.old) provider tree from.now to.now from.now.depth q 0) }
    ensures entries { OnOk result ((q : Place) → is_some (block_at tape.new q) ≡ has_block_after from.now.depth tape.old provider tree from.now to.now q) }
    ensures leaves { OnOk result ((q : Place) → leaf_at tape.new q ≡ leaf_at tape.old q) }
    ensures zero { IfOk result (λ ends. ends.zero ≡ (path (tape_meaning tape.old) tree from.now (0, 0) from.now.depth).0) }
    ensures one { IfOk result (λ ends. ends.one ≡ (path (tape_meaning tape.old) tree from.now (0, 0) from.now.depth).1) }
    ensures kept { IfOk result (λ ends. ends.kept.bit ≡ kept_bit (tape_meaning tape.old) provider tree from.now to.now from.now.depth) }
{
    let depth = from.depth;
    let moving = other(provider);
    let mut zero = root_of(Provider::Zero, 0);
    let mut one = root_of(Provider::One, 0);
    let mut kept = root_of(provider, 0);
    for level in 0..depth {
        let place_zero = place_of(tree, Provider::Zero, depth, from.alpha, level);
        let place_one = place_of(tree, Provider::One, depth, from.alpha, level);
        let place_kept = place_of(tree, provider, depth, to.alpha, level);
        let first = place_of(tree, moving, depth, from.alpha, level);
        let second = place_of(tree, moving, depth, to.alpha, level);
        let block_zero = block_on(tape, place_zero);
        let block_one = block_on(tape, place_one);
        let block_kept = block_on(tape, place_kept);
        let theirs = block_on(tape, first);
        let keep = goes_right(depth, from.alpha, level);
        let keep2 = goes_right(depth, to.alpha, level);
        let bits = (zero.bit, one.bit);
        let row = level_for(keep, from.beta, bits, &block_zero, &block_one);
        let turn = Move {
            kind: from.kind,
            provider,
            bit: kept.bit,
            beta: to.beta,
            keep,
            keep2,
        };
        let moved = moved_of(turn, &row, &theirs, &block_kept);
        exchange_blocks(tape, first, second, moved)?;
        zero = child_of(keep, zero.bit, &block_zero, &row.correction);
        one = child_of(keep, one.bit, &block_one, &row.correction);
        kept = child_of(keep2, kept.bit, &block_kept, &row.correction);
    }
    Ok(Ends { zero, one, kept })
}

/// Maps a tape in one tree, from the first secret to the second, for the provider whose key is kept.
pub fn map_tree(
    tape: &mut Tape,
    provider: Provider,
    tree: u32,
    from: &TreeSecret,
    to: &TreeSecret,
) -> Result<(), AllocError>
    requires depth { to.now.depth ≡ from.now.depth }
    ensures blocks { OnOk result ((q : Place) (seed : ℕ) → (tape_meaning tape.new).block q seed ≡ (mapped_tree (tape_meaning tape.old) provider tree from.now to.now).block q seed) }
    ensures leaves { OnOk result ((q : Place) (seed : ℕ) → (tape_meaning tape.new).leaf q seed ≡ (mapped_tree (tape_meaning tape.old) provider tree from.now to.now).leaf q seed) }
    ensures block_entries { OnOk result ((q : Place) → is_some (block_at tape.new q) ≡ has_block_after from.now.depth tape.old provider tree from.now to.now q) }
    ensures leaf_entries { OnOk result ((q : Place) → is_some (leaf_at tape.new q) ≡ has_leaf_after tape.old provider tree from.now to.now q) }
{
    let depth = from.depth;
    let moving = other(provider);
    let ends = map_levels(tape, provider, tree, from, to)?;
    let place_zero = place_of(tree, Provider::Zero, depth, from.alpha, depth);
    let place_one = place_of(tree, Provider::One, depth, from.alpha, depth);
    let place_kept = place_of(tree, provider, depth, to.alpha, depth);
    let word_zero = leaf_on(tape, place_zero);
    let word_one = leaf_on(tape, place_one);
    let word_kept = leaf_on(tape, place_kept);
    let last = last_word(from.beta, ends.zero.bit, ends.one.bit, word_zero, word_one);
    let moved = moved_word_of(provider, ends.kept.bit, word_kept, last, to.beta);
    let first = place_of(tree, moving, depth, from.alpha, depth);
    let second = place_of(tree, moving, depth, to.alpha, depth);
    exchange_leaves(tape, first, second, moved)?;
    Ok(())
}
