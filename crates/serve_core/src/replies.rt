//! The reply to a request.
ghost use Rattle.std.specs.Prelude.{◌≡◌, ◌≤◌, IsErrOf, IsTrue};
ghost use Rattle.spl_outside.specs.Causes.{Counts};
ghost use Rattle.wire_frames.specs.Told.{Told};
ghost use Rattle.serve_core.specs.Replies.{RepliesAt, body_to, code_of};

use provider_core::{ProviderFault, answer};
use seed_expansion::Expander;
use share_eval::Gate;
use spl_outside::{Door, Stop};
use spl_values::Table;
use spl_words::Provider;
use std::alloc::Global;
use std::thread::Threads;
use wire_frames::send_at_door;

/// Who answers requests, and over which table.
#[derive(Drop)]
pub struct Answering<'a, T, E, G> {
    pub rt: &'a T,
    pub expander: &'a E,
    pub provider: Provider,
    pub table: &'a Table,
    pub workers: usize,
    pub gate: &'a G,
}

/// The code of a refusal.
fn code_of(fault: ProviderFault) -> u8
    ensures { result ≡ code_of fault }
{
    match fault {
        ProviderFault::Frame(_) => 1,
        ProviderFault::WrongProvider(_) => 2,
        ProviderFault::ShapeDiffers(_) => 3,
        ProviderFault::Query(_) => 4,
        ProviderFault::WrongLayout(_) => 5,
        ProviderFault::SumBound(_, _) => 6,
        ProviderFault::OutOfMemory => 7,
    }
}

/// Sends the reply to a frame.
pub fn send_reply<T: Threads + Sync, E: Expander + Sync, D: Door, G: Gate + Sync>(
    alloc: Global,
    answering: &Answering<T, E, G>,
    door: &mut D,
    frame: &[u8],
) -> Result<(), Stop>
    requires present { IsTrue (D.present door.old) }
    requires workers { (1 ≤ answering.now.workers) × (answering.now.workers ≤ 64) }
    ensures told { Told (D.told door.old) (D.told door.new) (RepliesAt (body_to (E.meaning answering.now.expander.now) answering.now.provider answering.now.table.now) frame.now result) }
    ensures present { D.present door.new ≡ D.present door.old }
    ensures faults { D.faults door.new ≡ D.faults door.old }
    ensures cause { Counts (D.losses door.old) (D.losses door.new) (IsErrOf result Stop.Failed) }
{
    let answered = answer(
        answering.rt,
        alloc,
        answering.expander,
        answering.provider,
        frame,
        answering.table,
        answering.workers,
        answering.gate,
    );
    match answered {
        Ok(bytes) => send_at_door(alloc, door, 0, &bytes),
        Err(fault) => send_at_door(alloc, door, code_of(fault), &[]),
    }
}
