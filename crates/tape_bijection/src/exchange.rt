//! Entries of a tape, read and exchanged.
ghost use Rattle.std.specs.Prelude.{◌≡◌, ◌≢◌, OnOk, is_some, true};
ghost use Rattle.seed_expansion.specs.declared.nodes.Place.{Place};
ghost use Rattle.seed_expansion.specs.Tapes.{block_at, leaf_at, or_no_block, or_no_word};

use seed_expansion::{Block, Expander, Place, Tape, TapeExpander};
use std::alloc::AllocError;

/// The block at a place, or zeros.
pub fn block_on(tape: &Tape, place: Place) -> Block
    ensures { result ≡ or_no_block (block_at tape.now place) }
{
    TapeExpander { tape }.block(place, 0)
}

/// The leaf word at a place, or 0.
pub fn leaf_on(tape: &Tape, place: Place) -> u64
    ensures { result ≡ or_no_word (leaf_at tape.now place) }
{
    TapeExpander { tape }.leaf(place, 0)
}

/// The block at `first` becomes that at `second`, which becomes `moved`.
pub fn exchange_blocks(
    tape: &mut Tape,
    first: Place,
    second: Place,
    moved: Block,
) -> Result<(), AllocError>
    ensures second { OnOk result (or_no_block (block_at tape.new second) ≡ moved) }
    ensures first { OnOk result (first ≢ second → or_no_block (block_at tape.new first) ≡ or_no_block (block_at tape.old second)) }
    ensures second_entry { OnOk result (is_some (block_at tape.new second) ≡ true) }
    ensures first_entry { OnOk result (is_some (block_at tape.new first) ≡ true) }
    ensures elsewhere { OnOk result ((q : Place) → q ≢ second → q ≢ first → block_at tape.new q ≡ block_at tape.old q) }
    ensures leaves { OnOk result ((q : Place) → leaf_at tape.new q ≡ leaf_at tape.old q) }
{
    let theirs = block_on(tape, second);
    tape.set_block(first, theirs)?;
    tape.set_block(second, moved)?;
    Ok(())
}

/// The leaf word at `first` becomes that at `second`, which becomes `moved`.
pub fn exchange_leaves(
    tape: &mut Tape,
    first: Place,
    second: Place,
    moved: u64,
) -> Result<(), AllocError>
    ensures second { OnOk result (or_no_word (leaf_at tape.new second) ≡ moved) }
    ensures first { OnOk result (first ≢ second → or_no_word (leaf_at tape.new first) ≡ or_no_word (leaf_at tape.old second)) }
    ensures second_entry { OnOk result (is_some (leaf_at tape.new second) ≡ true) }
    ensures first_entry { OnOk result (is_some (leaf_at tape.new first) ≡ true) }
    ensures elsewhere { OnOk result ((q : Place) → q ≢ second → q ≢ first → leaf_at tape.new q ≡ leaf_at tape.old q) }
    ensures blocks { OnOk result ((q : Place) → block_at tape.new q ≡ block_at tape.old q) }
{
    let theirs = leaf_on(tape, second);
    tape.set_leaf(first, theirs)?;
    tape.set_leaf(second, moved)?;
    Ok(())
}
