//! The key frames of a round.
ghost use Rattle.std.specs.Prelude.{◌≡◌, ◌+◌, ◌<◌, ◌≤◌, ◌^◌, length, map, IfOk};
ghost use Rattle.spl_words.specs.declared.provider.Provider.TheVariants.{Zero, One};
ghost use Rattle.spl_words.specs.Secrets.{secret_tree};
ghost use Rattle.key_frames.specs.Trees.{key_of, key_list, key_tree};
ghost use Rattle.session_model.specs.Sessions.{frame_of};

use crate::roots::Roots;
use interval_keys::make_threshold;
use key_frames::{Key, KeyFrame, Keys};
use point_keys::make_point;
use private_plan::Secrets;
use seed_expansion::Expander;
use spl_values::{Bytes, Shape};
use spl_words::{Provider, TreeKind, TreeSecret};
use std::alloc::{AllocError, Global};

/// What the key frames of a round say beside their keys.
#[derive(Debug, Drop)]
pub struct RoundHead {
    pub session: u128,
    /// 1 or 2.
    pub round: u32,
    /// The number of the round's first tree.
    pub first_tree: u32,
    /// The query's text, with its question marks.
    pub query: Bytes,
    /// The shape of the table that is asked.
    pub shape: Shape,
}

/// The keys of `Zero` and of `One` of a point tree.
fn point_pair<E: Expander>(
    alloc: Global,
    expander: &E,
    tree: u32,
    secret: &TreeSecret,
    roots: (u128, u128),
) -> Result<(Key, Key), AllocError>
    requires { secret.now.kind ≡ TreeKind.Point }
    ensures zero { IfOk result (λ keys. keys.0 ≡ key_of secret.now.kind (E.meaning expander.now) Zero tree secret.now roots) }
    ensures one { IfOk result (λ keys. keys.1 ≡ key_of secret.now.kind (E.meaning expander.now) One tree secret.now roots) }
{
    let (zero, one) = make_point(
        alloc,
        expander,
        tree,
        secret.depth,
        secret.alpha,
        secret.beta,
        roots,
    )?;
    Ok((Key::Point(zero), Key::Point(one)))
}

/// The keys of `Zero` and of `One` of a threshold tree.
fn threshold_pair<E: Expander>(
    alloc: Global,
    expander: &E,
    tree: u32,
    secret: &TreeSecret,
    roots: (u128, u128),
) -> Result<(Key, Key), AllocError>
    requires { secret.now.kind ≡ TreeKind.Threshold }
    ensures zero { IfOk result (λ keys. keys.0 ≡ key_of secret.now.kind (E.meaning expander.now) Zero tree secret.now roots) }
    ensures one { IfOk result (λ keys. keys.1 ≡ key_of secret.now.kind (E.meaning expander.now) One tree secret.now roots) }
{
    let (zero, one) = make_threshold(
        alloc,
        expander,
        tree,
        secret.depth,
        secret.alpha,
        secret.beta,
        roots,
    )?;
    Ok((Key::Threshold(zero), Key::Threshold(one)))
}

/// The keys of `Zero` and of `One` of a tree.
fn key_pair<E: Expander>(
    alloc: Global,
    expander: &E,
    tree: u32,
    secret: &TreeSecret,
    roots: (u128, u128),
) -> Result<(Key, Key), AllocError>
    ensures zero { IfOk result (λ keys. keys.0 ≡ key_of secret.now.kind (E.meaning expander.now) Zero tree secret.now roots) }
    ensures one { IfOk result (λ keys. keys.1 ≡ key_of secret.now.kind (E.meaning expander.now) One tree secret.now roots) }
{
    match secret.kind {
        TreeKind::Point => point_pair(alloc, expander, tree, secret, roots),
        TreeKind::Threshold => threshold_pair(alloc, expander, tree, secret, roots),
    }
}

/// The keys of `Zero` and those of `One` of some trees, which are numbered from `first_tree` on.
fn key_lists<E: Expander>(
    alloc: Global,
    expander: &E,
    first_tree: u32,
    secrets: &[TreeSecret],
    roots: &[(u128, u128)],
) -> Result<(Keys, Keys), AllocError>
    requires roots { length roots.now ≡ length secrets.now }
    requires trees { first_tree + length secrets.now ≤ 2 ^ 32 }
    ensures zero { IfOk result (λ keys. keys.0 ≡ key_list (E.meaning expander.now) Zero first_tree secrets.now roots.now) }
    ensures one { IfOk result (λ keys. keys.1 ≡ key_list (E.meaning expander.now) One first_tree secrets.now roots.now) }
{
    let mut zeros = Keys::new(alloc);
    let mut ones = Keys::new(alloc);
    for (i, secret) in secrets.iter().enumerate() {
        let (zero, one) = key_pair(alloc, expander, first_tree + i as u32, secret, roots[i])?;
        zeros.push(zero)?;
        ones.push(one)?;
    }
    Ok((zeros, ones))
}

/// The frame of a provider with these keys.
fn frame_with(head: &RoundHead, provider: Provider, keys: Keys) -> Result<KeyFrame, AllocError>
    ensures { IfOk result (λ frame. frame ≡ record { session = head.now.session; round = head.now.round; provider = provider; query = head.now.query; shape = head.now.shape; keys = keys }) }
{
    Ok(KeyFrame {
        session: head.session,
        round: head.round,
        provider,
        query: head.query.clone()?,
        shape: head.shape.clone()?,
        keys,
    })
}

/// The key frames of a round for `Zero` and for `One`, with one key for each secret. There are as many roots as
/// secrets, and no tree has a number of 2^32 or more.
///
/// # Errors
///
/// Only for want of memory.
pub fn round_frames<E: Expander>(
    alloc: Global,
    expander: &E,
    head: &RoundHead,
    secrets: &Secrets,
    roots: &Roots,
) -> Result<(KeyFrame, KeyFrame), AllocError>
    requires roots { length roots.now ≡ length secrets.now }
    requires trees { head.now.first_tree + length secrets.now ≤ 2 ^ 32 }
    ensures zero { IfOk result (λ frames. frames.0 ≡ frame_of (E.meaning expander.now) Zero head.now.session head.now.round head.now.first_tree head.now.query head.now.shape secrets.now roots.now) }
    ensures one { IfOk result (λ frames. frames.1 ≡ frame_of (E.meaning expander.now) One head.now.session head.now.round head.now.first_tree head.now.query head.now.shape secrets.now roots.now) }
    // The keys of both are of their secrets' trees, of which the length of a frame is a sum.
    ensures trees { IfOk result (λ frames. (map key_tree frames.0.keys ≡ map secret_tree secrets.now) × (map key_tree frames.1.keys ≡ map secret_tree secrets.now)) }
{
    let (zeros, ones) = key_lists(
        alloc,
        expander,
        head.first_tree,
        secrets.as_slice(),
        roots.as_slice(),
    )?;
    let zero = frame_with(head, Provider::Zero, zeros)?;
    let one = frame_with(head, Provider::One, ones)?;
    Ok((zero, one))
}
