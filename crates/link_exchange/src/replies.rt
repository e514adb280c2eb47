//! Replies that come over a link.
ghost use Rattle.std.specs.Prelude.{◌≤◌, IsErrOf};
ghost use Rattle.spl_words.specs.Results.{Is};
ghost use Rattle.spl_outside.specs.Causes.{Counts};
ghost use Rattle.wire_frames.specs.Framing.{longest_body};
ghost use Rattle.wire_frames.specs.Told.{Told};
ghost use Rattle.link_exchange.specs.Replying.{TakesBody, TakesReply, answer_in};

use spl_outside::{Failed, Link};
use spl_words::FrameFault;
use std::alloc::Global;
use wire_frames::{LONGEST_BODY, fill_from_link, length_in, room_of};

/// The body of a reply.
#[derive(Debug, Drop)]
pub enum Body {
    /// These bytes.
    Whole(Vec<u8>),
    /// More bytes than a body may have. They were not taken.
    TooLarge,
}

/// Why no reply was taken.
#[derive(Clone, Copy, Debug, PartialEq, Eq)]
pub enum LinkStop {
    /// The link failed.
    Failed,
    /// The link's bytes ended inside the length or the body: the bytes of it that came, and those that it needs.
    Ended(u64, u64),
    /// There was no memory for the body.
    OutOfMemory,
}

/// Why there is no answer in a body.
#[derive(Clone, Copy, Debug, PartialEq, Eq)]
pub enum ReplyFault {
    /// The body is the code of a refusal.
    Refused(u8),
    /// The body is none.
    Frame(FrameFault),
}

/// Takes so many bytes.
fn take_body<L: Link>(alloc: Global, link: &mut L, needed: usize) -> Result<Vec<u8>, LinkStop>
    requires short { needed ≤ longest_body }
    ensures told { Told (L.told link.old) (L.told link.new) (TakesBody needed result) }
    ensures cause { Counts (L.faults link.old) (L.faults link.new) (IsErrOf result LinkStop.Failed) }
{
    let mut body = match room_of(alloc, needed) {
        Ok(body) => body,
        Err(_) => return Err(LinkStop::OutOfMemory),
    };
    let had = match fill_from_link(link, &mut body) {
        Ok(had) => had,
        Err(Failed) => return Err(LinkStop::Failed),
    };
    if had < needed {
        return Err(LinkStop::Ended(had as u64, needed as u64));
    }
    Ok(body)
}

/// Takes a reply: its length, and its body.
pub fn take_reply<L: Link>(alloc: Global, link: &mut L) -> Result<Body, LinkStop>
    ensures told { Told (L.told link.old) (L.told link.new) (TakesReply result) }
    ensures cause { Counts (L.faults link.old) (L.faults link.new) (IsErrOf result LinkStop.Failed) }
{
    let mut bytes = [0; 4];
    let had = match fill_from_link(link, &mut bytes) {
        Ok(had) => had,
        Err(Failed) => return Err(LinkStop::Failed),
    };
    if had < 4 {
        return Err(LinkStop::Ended(had as u64, 4));
    }
    let needed = length_in(bytes);
    if needed as usize > LONGEST_BODY {
        return Ok(Body::TooLarge);
    }
    match take_body(alloc, link, needed as usize) {
        Ok(body) => Ok(Body::Whole(body)),
        Err(stop) => Err(stop),
    }
}

/// The bytes of the answer in a body.
///
/// # Errors
///
/// The code of a refusal, from 1 to 8, where the body is that one byte; or why the body is none.
pub fn answer_in(body: &Body) -> Result<&[u8], ReplyFault>
    ensures { Is (λ b. b.now) result (answer_in body.now) }
{
    let bytes = match body {
        Body::Whole(bytes) => bytes.as_slice(),
        Body::TooLarge => return Err(ReplyFault::Frame(FrameFault::TooLarge)),
    };
    match bytes {
        [] => Err(ReplyFault::Frame(FrameFault::Short(1, 0))),
        [0, answer @ ..] => Ok(answer),
        [code] if *code <= 8 => Err(ReplyFault::Refused(*code)),
        _ => Err(ReplyFault::Frame(FrameFault::BadField(0))),
    }
}
