//! Whether a frame's keys are those that the plan asks for.
ghost use Rattle.std.specs.Prelude.{◌≡◌, ◌≤◌, ◌↔◌, IsTrue, length, slice_get};
ghost use Rattle.private_plan.specs.Lengths.{trees_in as trees_of_round};
ghost use Rattle.provider_core.specs.Asking.{if_placed};
ghost use Rattle.provider_core.specs.Layouts.{has_kind as is_of_kind, is_key_of as is_of_tree, layout_differs as first_difference, IsPlaced};
ghost use Rattle.key_frames.specs.Keys.{depth as depth_of};

use crate::fault::ProviderFault;
use key_frames::Key;
use private_plan::{KeySpec, Plan, trees_in};
use spl_words::TreeKind;

/// Whether a key is of that kind.
fn has_kind(kind: TreeKind, key: &Key) -> bool
    ensures { result ≡ is_of_kind kind key.now }
{
    match (kind, key) {
        (TreeKind::Point, Key::Point(_)) => true,
        (TreeKind::Threshold, Key::Threshold(_)) => true,
        _ => false,
    }
}

/// The number of a key's levels.
pub fn depth(key: &Key) -> usize
    ensures { result ≡ depth_of key.now }
{
    match key {
        Key::Point(point) => point.levels.len(),
        Key::Threshold(threshold) => threshold.levels.len(),
    }
}

/// Whether a key is of that tree's kind and depth.
fn is_key_of(tree: &KeySpec, key: &Key) -> bool
    ensures { result ≡ is_of_tree tree.now key.now }
{
    has_kind(tree.kind, key) && tree.depth as usize == depth(key)
}

/// Whether a key is of the tree at a place.
fn is_placed(trees: &[KeySpec], place: usize, key: &Key) -> bool
    ensures { IsTrue result ↔ IsPlaced (slice_get trees.now place) key.now }
{
    match trees.get(place) {
        Some(tree) => is_key_of(tree, key),
        None => false,
    }
}

/// The first place at which keys aren't those of the trees.
fn layout_differs(trees: &[KeySpec], keys: &[Key]) -> Option<u32>
    requires { length keys.now ≤ 512 }
    ensures { result ≡ first_difference 0 trees.now keys.now }
{
    for (place, key) in keys.iter().enumerate() {
        if !is_placed(trees, place, key) {
            return Some(place as u32);
        }
    }
    if keys.len() < trees.len() {
        Some(keys.len() as u32)
    } else {
        None
    }
}

/// Whether keys are those of a plan's round.
pub fn check_layout(plan: &Plan, round: u32, keys: &[Key]) -> Result<(), ProviderFault>
    requires { length keys.now ≤ 512 }
    ensures { result ≡ if_placed (first_difference 0 (trees_of_round plan.now round) keys.now) }
{
    match layout_differs(trees_in(plan, round), keys) {
        None => Ok(()),
        Some(place) => Err(ProviderFault::WrongLayout(place)),
    }
}
