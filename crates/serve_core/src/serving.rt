//! The requests of a connection, one after another.
ghost use Rattle.std.specs.Prelude.{◌≡◌, ◌≤◌, length, IsErrOf, IsTrue};
ghost use Rattle.spl_outside.specs.Causes.{Counts};
ghost use Rattle.wire_frames.specs.Framing.{longest_request};
ghost use Rattle.wire_frames.specs.Told.{Told};
ghost use Rattle.serve_core.specs.Replies.{body_to};
ghost use Rattle.serve_core.specs.Serving.{ServesAt};
ghost use Rattle.serve_core.specs.Taking.{FitsRoom, OneAt, TakesRequestAt};

use crate::end::{ServeEnd, end_of};
use crate::replies::{Answering, send_reply};
use seed_expansion::Expander;
use share_eval::Gate;
use spl_outside::{Door, Failed};
use spl_values::Table;
use spl_words::Provider;
use std::alloc::Global;
use std::thread::Threads;
use wire_frames::{LONGEST_REQUEST, fill_from_door, length_in, room_of, send_at_door};

/// How many requests a connection may have.
const MOST_REQUESTS: u64 = 4_096;

/// What stands at the front of the input.
enum Taken {
    /// A request, whose frame has this length.
    Frame(usize),
    /// Too long a length.
    TooLong(u32),
    /// No whole length or frame.
    Ended(ServeEnd),
}

/// Takes a whole request, whose frame then stands in the room, or says why there is none.
fn take_request<D: Door>(door: &mut D, room: &mut [u8]) -> Taken
    requires present { IsTrue (D.present door.old) }
    requires room { length room.old ≡ longest_request }
    ensures told { Told (D.told door.old) (D.told door.new) (TakesRequestAt room.new result) }
    ensures bound { FitsRoom room.new result }
    ensures present { D.present door.new ≡ D.present door.old }
    ensures faults { D.faults door.new ≡ D.faults door.old }
    ensures cause { Counts (D.losses door.old) (D.losses door.new) (result ≡ Taken.Ended ServeEnd.Lost) }
{
    let mut bytes = [0; 4];
    let had = match fill_from_door(door, &mut bytes) {
        Ok(had) => had,
        Err(Failed) => return Taken::Ended(ServeEnd::Lost),
    };
    if had == 0 {
        return Taken::Ended(ServeEnd::Clean);
    }
    if had < 4 {
        return Taken::Ended(ServeEnd::Cut(had as u64, 4));
    }
    let needed = length_in(bytes);
    if needed as usize > LONGEST_REQUEST {
        return Taken::TooLong(needed);
    }
    match fill_from_door(door, &mut room[..needed as usize]) {
        Ok(had) => if had < needed as usize {
            Taken::Ended(ServeEnd::Cut(had as u64, u64::from(needed)))
        } else {
            Taken::Frame(had)
        },
        Err(Failed) => Taken::Ended(ServeEnd::Lost),
    }
}

/// Answers the next request, or says how the connection ended.
fn serve_one<T: Threads + Sync, E: Expander + Sync, D: Door, G: Gate + Sync>(
    alloc: Global,
    answering: &Answering<T, E, G>,
    door: &mut D,
    room: &mut [u8],
) -> Result<(), ServeEnd>
    requires present { IsTrue (D.present door.old) }
    requires workers { (1 ≤ answering.now.workers) × (answering.now.workers ≤ 64) }
    requires room { length room.old ≡ longest_request }
    ensures told { Told (D.told door.old) (D.told door.new) (OneAt (body_to (E.meaning answering.now.expander.now) answering.now.provider answering.now.table.now) result) }
    ensures present { D.present door.new ≡ D.present door.old }
    ensures faults { D.faults door.new ≡ D.faults door.old }
    ensures cause { Counts (D.losses door.old) (D.losses door.new) (IsErrOf result ServeEnd.Lost) }
{
    match take_request(door, room) {
        Taken::Frame(length) => match send_reply(alloc, answering, door, &room[..length]) {
            Ok(()) => Ok(()),
            Err(stop) => Err(end_of(stop)),
        },
        Taken::TooLong(length) => match send_at_door(alloc, door, 8, &[]) {
            Ok(()) => Err(ServeEnd::TooLong(length)),
            Err(stop) => Err(end_of(stop)),
        },
        Taken::Ended(end) => Err(end),
    }
}

/// Answers the whole requests of the present connection in order, up to the 4,096th, and says how it ended. There are
/// 1 to 64 workers, and neither their number nor the gate makes a difference.
pub fn serve_connection<T: Threads + Sync, E: Expander + Sync, D: Door, G: Gate + Sync>(
    rt: &T,
    alloc: Global,
    expander: &E,
    provider: Provider,
    table: &Table,
    workers: usize,
    door: &mut D,
    gate: &G,
) -> ServeEnd
    requires present { IsTrue (D.present door.old) }
    requires workers { (1 ≤ workers) × (workers ≤ 64) }
    // The replies of the whole requests, and how the connection ended, by its input.
    ensures told { Told (D.told door.old) (D.told door.new) (ServesAt (body_to (E.meaning expander.now) provider table.now) 4096 result) }
    ensures present { D.present door.new ≡ D.present door.old }
    ensures faults { D.faults door.new ≡ D.faults door.old }
    // Lost exactly where a call on the connection failed.
    ensures cause { Counts (D.losses door.old) (D.losses door.new) (result ≡ ServeEnd.Lost) }
{
    let mut room = match room_of(alloc, LONGEST_REQUEST) {
        Ok(room) => room,
        Err(_) => return ServeEnd::OutOfMemory,
    };
    let room = room.as_mut_slice();
    let answering = Answering {
        rt,
        expander,
        provider,
        table,
        workers,
        gate,
    };
    for _ in 0..MOST_REQUESTS {
        match serve_one(alloc, &answering, door, room) {
            Ok(()) => {}
            Err(end) => return end,
        }
    }
    ServeEnd::Full
}
