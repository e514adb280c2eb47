//! The random words of a session.
ghost use Rattle.std.specs.Prelude.{◌≡◌, ◌+◌, ◌*◌, length, drop, IfSome, IfOk, IsErr, IsErrOf};
ghost use Rattle.spl_outside.specs.Causes.{Counts};
ghost use Rattle.session_model.specs.Draws.{wide, tree_roots, roots_of};
ghost use Rattle.client_rounds.specs.Draws.{Draws};

use crate::roots::Roots;
use spl_outside::{Draw, Failed, Stop};
use std::alloc::Global;

/// Draws a number of 128 bits, as two words, the high one first.
fn draw_wide<R: Draw>(draw: &mut R) -> Result<u128, Failed>
    ensures told { IfSome (R.words draw.old) (λ ws. Draws 2 (λ vs n. n ≡ wide vs) ws (R.words draw.new) result) }
    ensures cause { Counts (R.faults draw.old) (R.faults draw.new) (IsErr result) }
{
    let high = draw.word()?;
    let low = draw.word()?;
    Ok((u128::from(high) << 64) + u128::from(low))
}

/// Draws the roots of a tree, that of `Zero` first.
fn draw_tree<R: Draw>(draw: &mut R) -> Result<(u128, u128), Failed>
    ensures told { IfSome (R.words draw.old) (λ ws. Draws 4 (λ vs r. r ≡ tree_roots vs) ws (R.words draw.new) result) }
    ensures cause { Counts (R.faults draw.old) (R.faults draw.new) (IsErr result) }
{
    let zero = draw_wide(draw)?;
    let one = draw_wide(draw)?;
    Ok((zero, one))
}

/// Draws the roots of so many trees, four words each: the root of `Zero`, its high word first, and that of `One`.
///
/// # Errors
///
/// `Failed` exactly where the source failed; `OutOfMemory`.
pub fn draw_roots<R: Draw>(alloc: Global, draw: &mut R, count: u32) -> Result<Roots, Stop>
    ensures told { IfSome (R.words draw.old) (λ ws. Draws (4 * count) (λ vs r. r ≡ roots_of count vs) ws (R.words draw.new) result) }
    ensures count { IfOk result (λ roots. length roots ≡ count) }
    ensures cause { Counts (R.faults draw.old) (R.faults draw.new) (IsErrOf result Stop.Failed) }
{
    let mut roots = Roots::new(alloc);
    for _ in 0..count {
        let tree = match draw_tree(draw) {
            Ok(tree) => tree,
            Err(Failed) => return Err(Stop::Failed),
        };
        match roots.push(tree) {
            Ok(()) => {}
            Err(_) => return Err(Stop::OutOfMemory),
        }
    }
    Ok(roots)
}

/// What the first round of a session draws.
#[derive(Drop)]
pub(crate) struct Drawn {
    /// The number of the session.
    pub session: u128,
    pub roots: Roots,
}

/// Draws the number of a session, and then the roots of so many trees.
pub(crate) fn draw_session<R: Draw>(alloc: Global, draw: &mut R, count: u32) -> Result<Drawn, Stop>
    ensures told { IfSome (R.words draw.old) (λ ws. Draws (2 + 4 * count) (λ vs d. (d.session ≡ wide vs) × (d.roots ≡ roots_of count (drop 2 vs))) ws (R.words draw.new) result) }
    ensures count { IfOk result (λ drawn. length drawn.roots ≡ count) }
    ensures cause { Counts (R.faults draw.old) (R.faults draw.new) (IsErrOf result Stop.Failed) }
{
    let session = match draw_wide(draw) {
        Ok(session) => session,
        Err(Failed) => return Err(Stop::Failed),
    };
    let roots = draw_roots(alloc, draw, count)?;
    Ok(Drawn { session, roots })
}
