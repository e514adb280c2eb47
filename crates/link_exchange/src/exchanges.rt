//! A request to each side, and a reply from each.
ghost use Rattle.std.specs.Prelude.{◌≡◌, ◌<◌, ◌^◌, length, IsErrOf};
ghost use Rattle.spl_outside.specs.Causes.{Counts};
ghost use Rattle.wire_frames.specs.Told.{Told};
ghost use Rattle.link_exchange.specs.Asking.{Asked, send_fault, take_fault};

use crate::replies::{Body, LinkStop, take_reply};
use spl_outside::{Link, Stop};
use std::alloc::Global;
use wire_frames::send_over_link;

/// Which of the two links.
#[derive(Clone, Copy, Debug, PartialEq, Eq)]
pub enum Side {
    Left,
    Right,
}

/// Why a round gave no two replies.
#[derive(Clone, Copy, Debug, PartialEq, Eq)]
pub enum RoundFault {
    /// This link failed.
    LinkFault(Side),
    /// This link's bytes ended inside the length or the body of its reply: the bytes of it that came, and those that it
    /// needs.
    LinkEnded(Side, u64, u64),
    /// There was no memory for it.
    OutOfMemory,
}

/// The bodies of the two replies.
#[derive(Debug, Drop)]
pub struct Bodies {
    pub left: Body,
    pub right: Body,
}

/// The fault that a failed send makes.
fn send_fault(side: Side, stop: Stop) -> RoundFault
    ensures { result ≡ send_fault side stop }
{
    match stop {
        Stop::Failed => RoundFault::LinkFault(side),
        Stop::OutOfMemory => RoundFault::OutOfMemory,
    }
}

/// The fault that a reply which wasn't taken makes.
fn take_fault(side: Side, stop: LinkStop) -> RoundFault
    ensures { result ≡ take_fault side stop }
{
    match stop {
        LinkStop::Failed => RoundFault::LinkFault(side),
        LinkStop::Ended(had, needed) => RoundFault::LinkEnded(side, had, needed),
        LinkStop::OutOfMemory => RoundFault::OutOfMemory,
    }
}

/// Sends a request left and one right, and takes the reply of the left and then of the right. Nothing behind a reply
/// is taken.
pub fn exchange<L: Link>(
    alloc: Global,
    left: &mut L,
    right: &mut L,
    to_left: &[u8],
    to_right: &[u8],
) -> Result<Bodies, RoundFault>
    requires short_left { length to_left.now < 2 ^ 32 }
    requires short_right { length to_right.now < 2 ^ 32 }
    ensures left { Told (L.told left.old) (L.told left.new) (Asked Side.Left to_left.now result) }
    ensures right { Told (L.told right.old) (L.told right.new) (Asked Side.Right to_right.now result) }
    ensures left_cause { Counts (L.faults left.old) (L.faults left.new) (IsErrOf result (RoundFault.LinkFault Side.Left)) }
    ensures right_cause { Counts (L.faults right.old) (L.faults right.new) (IsErrOf result (RoundFault.LinkFault Side.Right)) }
{
    match send_over_link(alloc, left, to_left) {
        Ok(()) => {}
        Err(stop) => return Err(send_fault(Side::Left, stop)),
    }
    match send_over_link(alloc, right, to_right) {
        Ok(()) => {}
        Err(stop) => return Err(send_fault(Side::Right, stop)),
    }
    let from_left = match take_reply(alloc, left) {
        Ok(body) => body,
        Err(stop) => return Err(take_fault(Side::Left, stop)),
    };
    let from_right = match take_reply(alloc, right) {
        Ok(body) => body,
        Err(stop) => return Err(take_fault(Side::Right, stop)),
    };
    Ok(Bodies {
        left: from_left,
        right: from_right,
    })
}
