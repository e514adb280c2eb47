//! Tapes, and the map under which one provider's key stays the same: the rows worked by hand.
ghost use Rattle.std.specs.Prelude.{◌≡◌, ◌<◌};

use interval_keys::{ThresholdLevel, make_threshold};
use point_keys::make_point;
use seed_expansion::{Block, Correction, Expander, Place, Tape, TapeExpander};
use spl_words::{Provider, TreeKind, TreeSecret};
use std::alloc::{AllocError, Global};
use tape_bijection::map_tape;

const ZERO_ROOT: Place = Place {
    tree: 0,
    provider: Provider::Zero,
    level: 0,
    prefix: 0,
};

const ONE_ROOT: Place = Place {
    tree: 0,
    provider: Provider::One,
    level: 0,
    prefix: 0,
};

const ZERO_LEFT: Place = Place {
    tree: 0,
    provider: Provider::Zero,
    level: 1,
    prefix: 0,
};

const ZERO_RIGHT: Place = Place {
    tree: 0,
    provider: Provider::Zero,
    level: 1,
    prefix: 1,
};

const ONE_LEFT: Place = Place {
    tree: 0,
    provider: Provider::One,
    level: 1,
    prefix: 0,
};

const ONE_RIGHT: Place = Place {
    tree: 0,
    provider: Provider::One,
    level: 1,
    prefix: 1,
};

/// A tree of one bit whose secret number moves from 0 to 1 while the key of `One` stays: the blocks of both roots, and
/// what comes in place of that of `Zero`.
#[derive(Clone, Copy)]
struct Row {
    kind: TreeKind,
    zero: Block,
    one: Block,
    moved: Block,
}

const POINT: Row = Row {
    kind: TreeKind::Point,
    zero: Block {
        seed_l: 3,
        bit_l: false,
        word_l: 0,
        seed_r: 5,
        bit_r: true,
        word_r: 0,
    },
    one: Block {
        seed_l: 6,
        bit_l: true,
        word_l: 0,
        seed_r: 9,
        bit_r: true,
        word_r: 0,
    },
    moved: Block {
        seed_l: 10,
        bit_l: true,
        word_l: 0,
        seed_r: 3,
        bit_r: false,
        word_r: 0,
    },
};

const THRESHOLD: Row = Row {
    kind: TreeKind::Threshold,
    zero: Block {
        seed_l: 3,
        bit_l: false,
        word_l: 2,
        seed_r: 5,
        bit_r: true,
        word_r: 8,
    },
    one: Block {
        seed_l: 6,
        bit_l: true,
        word_l: 1,
        seed_r: 9,
        bit_r: true,
        word_r: 6,
    },
    moved: Block {
        seed_l: 10,
        bit_l: true,
        word_l: 3,
        seed_r: 3,
        bit_r: false,
        word_r: 8,
    },
};

/// The leaf words of the rows: of `Zero` left and right, and of `One`.
const DRAWN: &[(Place, u64)] = &[
    (ZERO_LEFT, 10),
    (ZERO_RIGHT, 20),
    (ONE_LEFT, 4),
    (ONE_RIGHT, 7),
];

/// The same after the map.
const MOVED: &[(Place, u64)] = &[
    (ZERO_LEFT, 20),
    (ZERO_RIGHT, 13),
    (ONE_LEFT, 4),
    (ONE_RIGHT, 7),
];

/// The correction of the key of `One` in both rows; its last word is 5.
const CORRECTION: Correction = Correction {
    seed: 12,
    bit_l: false,
    bit_r: false,
};

/// Sets these leaf words.
fn set_leaves(tape: &mut Tape, leaves: &[(Place, u64)]) -> Result<(), AllocError> {
    for (place, word) in leaves {
        tape.set_leaf(*place, *word)?;
    }
    Ok(())
}

/// Sets the blocks of both roots.
fn set_roots(tape: &mut Tape, row: &Row) -> Result<(), AllocError> {
    tape.set_block(ZERO_ROOT, row.zero)?;
    tape.set_block(ONE_ROOT, row.one)?;
    Ok(())
}

/// The row's tape.
fn drawn(alloc: Global, row: &Row) -> Result<Tape, AllocError> {
    let mut tape = Tape::new(alloc)?;
    set_roots(&mut tape, row)?;
    set_leaves(&mut tape, DRAWN)?;
    Ok(tape)
}

/// The secret of a tree of one bit.
fn secret(kind: TreeKind, alpha: u128) -> TreeSecret
    requires { alpha < 2 }
    ensures { result ≡ record { kind = kind; depth = 1; alpha = alpha; beta = 1 } }
{
    TreeSecret {
        kind,
        depth: 1,
        alpha,
        beta: 1,
    }
}

/// The row's tape, mapped.
fn mapped(alloc: Global, row: &Row) -> Result<Tape, AllocError> {
    let mut tape = drawn(alloc, row)?;
    let from = [secret(row.kind, 0)];
    let to = [secret(row.kind, 1)];
    map_tape(alloc, &mut tape, Provider::One, &from, &to)?;
    Ok(tape)
}

/// Whether the leaf words are these.
fn has_leaves(tape: &Tape, leaves: &[(Place, u64)]) -> bool {
    for (place, word) in leaves {
        if tape.leaf_at(*place) != Some(*word) {
            return false;
        }
    }
    true
}

/// Whether the row's mapped tape is as the row says.
fn is_mapped(alloc: Global, row: &Row) -> Result<bool, AllocError> {
    let tape = mapped(alloc, row)?;
    let moved = tape.block_at(ZERO_ROOT) == Some(row.moved);
    let kept = tape.block_at(ONE_ROOT) == Some(row.one);
    Ok(moved && kept && has_leaves(&tape, MOVED))
}

/// Whether the key of `One` under a tape has the rows' correction and last word.
fn has_point_key(alloc: Global, tape: &Tape, alpha: u128) -> Result<bool, AllocError>
    requires { alpha < 2 }
{
    let (_, key) = make_point(alloc, &TapeExpander { tape }, 0, 1, alpha, 1, (0, 0))?;
    Ok(key.levels.as_slice() == [CORRECTION].as_slice() && key.last == 5)
}

/// The same for a threshold, whose level has the words 1 and 2.
fn has_threshold_key(alloc: Global, tape: &Tape, alpha: u128) -> Result<bool, AllocError>
    requires { alpha < 2 }
{
    let (_, key) = make_threshold(alloc, &TapeExpander { tape }, 0, 1, alpha, 1, (0, 0))?;
    let level = ThresholdLevel {
        correction: CORRECTION,
        word_l: 1,
        word_r: 2,
    };
    Ok(key.levels.as_slice() == [level].as_slice() && key.last == 5)
}

/// Whether the point key is the same under the drawn tape and the mapped one.
fn keeps_point_key(alloc: Global) -> Result<bool, AllocError> {
    let first = drawn(alloc, &POINT)?;
    let second = mapped(alloc, &POINT)?;
    let before = has_point_key(alloc, &first, 0);
    let after = has_point_key(alloc, &second, 1);
    Ok(before == Ok(true) && after == Ok(true))
}

/// The same for the threshold key.
fn keeps_threshold_key(alloc: Global) -> Result<bool, AllocError> {
    let first = drawn(alloc, &THRESHOLD)?;
    let second = mapped(alloc, &THRESHOLD)?;
    let before = has_threshold_key(alloc, &first, 0);
    let after = has_threshold_key(alloc, &second, 1);
    Ok(before == Ok(true) && after == Ok(true))
}

#[test]
fn mapped_point_tree(rt: HostRuntime) {
    let found = [is_mapped(rt.alloc(), &POINT), keeps_point_key(rt.alloc())];
    assert_eq!(rt; found, [Ok(true); 2]);
}

#[test]
fn mapped_threshold_tree(rt: HostRuntime) {
    let found = [
        is_mapped(rt.alloc(), &THRESHOLD),
        keeps_threshold_key(rt.alloc()),
    ];
    assert_eq!(rt; found, [Ok(true); 2]);
}

/// What is read at a place of a tape on which none is set.
fn read_blank(alloc: Global) -> Result<(u128, u64), AllocError> {
    let tape = Tape::new(alloc)?;
    let blank = TapeExpander { tape: &tape };
    Ok((blank.block(ONE_ROOT, 9).seed_r, blank.leaf(ONE_LEFT, 9)))
}

#[test]
fn blank_tape_reads_zeros(rt: HostRuntime) {
    assert_eq!(rt; read_blank(rt.alloc()), Ok((0, 0)));
}

/// Whether the places of the point row's tape are those of both trees, in their order.
fn lists_places(alloc: Global) -> Result<bool, AllocError> {
    let tape = drawn(alloc, &POINT)?;
    let places = tape.set_places(alloc)?;
    let want = [
        ZERO_ROOT, ZERO_LEFT, ZERO_RIGHT, ONE_ROOT, ONE_LEFT, ONE_RIGHT,
    ];
    Ok(places.as_slice() == want.as_slice())
}

#[test]
fn places_rise(rt: HostRuntime) {
    assert_eq!(rt; lists_places(rt.alloc()), Ok(true));
}
