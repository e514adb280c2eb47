//! Frames over a link.
ghost use Rattle.std.specs.Prelude.{◌≤◌, ◌<◌, ◌^◌, length, IfOk, IsErr, IsErrOf};
ghost use Rattle.spl_outside.specs.Causes.{Counts};
ghost use Rattle.wire_frames.specs.Filling.{Fills};
ghost use Rattle.wire_frames.specs.Sending.{SendsFrame};
ghost use Rattle.wire_frames.specs.Told.{Told};

use spl_outside::{Failed, Link, Stop};
use std::alloc::Global;

/// Fills the buffer, or as much of it as the input goes, and says how much.
pub fn fill_from_link<L: Link>(link: &mut L, buf: &mut [u8]) -> Result<usize, Failed>
    ensures told { Told (L.told link.old) (L.told link.new) (λ w n. Fills w buf.new n result) }
    ensures bound { IfOk result (λ k. k ≤ length buf.new) }
    ensures cause { Counts (L.faults link.old) (L.faults link.new) (IsErr result) }
{
    let mut filled = 0;
    while filled < buf.len() {
        let count = match link.receive(&mut buf[filled..]) {
            Ok(count) => count,
            Err(Failed) => return Err(Failed),
        };
        if count == 0 {
            return Ok(filled);
        }
        filled += count;
    }
    Ok(filled)
}

/// Sends a frame: its length, and then its bytes.
pub fn send_over_link<L: Link>(alloc: Global, link: &mut L, frame: &[u8]) -> Result<(), Stop>
    requires short { length frame.now < 2 ^ 32 }
    ensures told { Told (L.told link.old) (L.told link.new) (SendsFrame frame.now result) }
    ensures cause { Counts (L.faults link.old) (L.faults link.new) (IsErrOf result Stop.Failed) }
{
    let length = (frame.len() as u32).to_be_bytes();
    match link.send(alloc, &length) {
        Ok(()) => {}
        Err(stop) => return Err(stop),
    }
    link.send(alloc, frame)
}
