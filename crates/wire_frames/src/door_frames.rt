//! Frames at a door.
ghost use Rattle.std.specs.Prelude.{◌≡◌, ◌≤◌, ◌<◌, ◌^◌, ◌-◌, ◌∷◌, length, IfOk, IsErr, IsErrOf, IsTrue};
ghost use Rattle.spl_outside.specs.Causes.{Counts};
ghost use Rattle.wire_frames.specs.Filling.{FillsAt};
ghost use Rattle.wire_frames.specs.Sending.{SendsFrameAt};
ghost use Rattle.wire_frames.specs.Told.{Told};

use crate::head_of;
use spl_outside::{Door, Failed, Stop};
use std::alloc::Global;

/// Fills the buffer, or as much of it as the input goes, and says how much.
pub fn fill_from_door<D: Door>(door: &mut D, buf: &mut [u8]) -> Result<usize, Failed>
    requires present { IsTrue (D.present door.old) }
    ensures told { Told (D.told door.old) (D.told door.new) (FillsAt buf.new result) }
    ensures bound { IfOk result (λ k. k ≤ length buf.new) }
    ensures present { D.present door.new ≡ D.present door.old }
    ensures faults { D.faults door.new ≡ D.faults door.old }
    ensures cause { Counts (D.losses door.old) (D.losses door.new) (IsErr result) }
{
    let mut filled = 0;
    while filled < buf.len() {
        let count = match door.receive(&mut buf[filled..]) {
            Ok(count) => count,
            Err(Failed) => return Err(Failed),
        };
        if count == 0 {
            return Ok(filled);
        }
        filled += count;
    }
    Ok(filled)
}

/// Sends the frame of a byte and more bytes: its length with the byte, and then the rest where there is one.
pub fn send_at_door<D: Door>(
    alloc: Global,
    door: &mut D,
    first: u8,
    rest: &[u8],
) -> Result<(), Stop>
    requires present { IsTrue (D.present door.old) }
    requires short { length rest.now < 2 ^ 32 - 1 }
    ensures told { Told (D.told door.old) (D.told door.new) (SendsFrameAt (first ∷ rest.now) result) }
    ensures present { D.present door.new ≡ D.present door.old }
    ensures faults { D.faults door.new ≡ D.faults door.old }
    ensures cause { Counts (D.losses door.old) (D.losses door.new) (IsErrOf result Stop.Failed) }
{
    let head = head_of(first, rest.len() as u32);
    match door.send(alloc, &head) {
        Ok(()) => {}
        Err(stop) => return Err(stop),
    }
    if rest.is_empty() {
        return Ok(());
    }
    door.send(alloc, rest)
}
