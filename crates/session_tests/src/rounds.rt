//! What no command asks of a client yet: the frames of a later round. And the order of the roots that are drawn.
ghost use Rattle.std.specs.Prelude.{◌≡◌, IfOk};

use client_rounds::{Roots, RoundHead, draw_roots, round_frames};
use key_frames::{Key, KeyFrame};
use private_plan::Secrets;
use seed_expansion::ToyExpander;
use spl_outside::SteadyDraw;
use spl_values::{Bytes, ShapeFault, read_shape};
use spl_words::{TreeKind, TreeSecret};
use std::alloc::{AllocError, Global};

const SHAPE: &[u8] = b"table t\nrows 3\na UINT(1)\nb UINT(4)\n";

const EQUAL: &[u8] = b"SELECT COUNT(*) FROM t WHERE a = ?";

/// A second round, whose tree has the last number that one may have.
fn later_head(alloc: Global) -> Result<RoundHead, ShapeFault>
    ensures { IfOk result (λ head. head.first_tree ≡ 4294967295) }
{
    Ok(RoundHead {
        session: 5,
        round: 2,
        first_tree: u32::MAX,
        query: Bytes::from_vec(Vec::from_slice(alloc, EQUAL)?),
        shape: read_shape(alloc, SHAPE)?,
    })
}

/// The frames of a round of one point tree of one level, with the roots 1 and 2.
fn frames_of(alloc: Global, head: &RoundHead) -> Result<(KeyFrame, KeyFrame), AllocError>
    requires { head.now.first_tree ≡ 4294967295 }
{
    let secret = TreeSecret {
        kind: TreeKind::Point,
        depth: 1,
        alpha: 1,
        beta: 1,
    };
    let secrets = Secrets::from_vec(vec![in alloc; secret]?);
    let roots = Roots::from_vec(vec![in alloc; (1, 2)]?);
    round_frames(alloc, &ToyExpander, head, &secrets, &roots)
}

/// Whether a frame is of the second round, with one point key of one level and this root.
fn is_later(frame: &KeyFrame, root: u128) -> bool {
    match frame.keys.as_slice() {
        [Key::Point(key)] => {
            frame.session == 5 && frame.round == 2 && key.root == root && key.levels.len() == 1
        }
        _ => false,
    }
}

/// Whether the frames of a round are those of the second.
fn has_later_frames(alloc: Global, head: &RoundHead) -> bool
    requires { head.now.first_tree ≡ 4294967295 }
{
    match frames_of(alloc, head) {
        Ok((zero, one)) => is_later(&zero, 1) && is_later(&one, 2),
        Err(_) => false,
    }
}

#[test]
fn a_later_round_has_frames(rt: HostRuntime) -> Result<(), ShapeFault> {
    let head = later_head(rt.alloc())?;
    assert!(rt; has_later_frames(rt.alloc(), &head));
    Ok(())
}

/// Whether the roots of one tree that are drawn are these.
fn are_roots(alloc: Global, draw: &mut SteadyDraw, wanted: (u128, u128)) -> bool {
    match draw_roots(alloc, draw, 1) {
        Ok(roots) => roots.as_slice() == [wanted].as_slice(),
        Err(_) => false,
    }
}

// A root is drawn with its high word first, that of Zero before that of One.
#[test]
fn roots_are_drawn_in_order(rt: HostRuntime) -> Result<(), AllocError> {
    let mut draw = SteadyDraw::new(vec![in rt.alloc(); 0, 1, 3, 2]?);
    assert!(rt; are_roots(rt.alloc(), &mut draw, (1, (3 << 64) + 2)));
    Ok(())
}
