//! A link and a door in memory that never fail: those that may, with no call that is to fail.
use crate::{Door, Failed, Link, MemoryDoor, ScriptLink, Sizes, Stop};
use std::alloc::Global;
use std::marker::Model;

/// A link in memory that never fails.
#[derive(Drop)]
pub struct SteadyLink {
    link: ScriptLink,
}

impl Model for SteadyLink {
    ghost use Rattle.std.specs.Prelude.{◌≡◌, []};
    ghost use Rattle.spl_outside.specs.Wire.{Wire};

    ghost Value = { Wire };

    ghost view = { λ s. s.link.wire };

    ghost invariant = { λ s. s.link.failing.numbers ≡ [] };
}

impl SteadyLink {
    ghost use Rattle.std.specs.Prelude.{◌≡◌, []};

    /// Nothing was sent; the k-th list of the script comes due at the k-th send.
    pub fn new(alloc: Global, script: Vec<Vec<u8>>) -> Self
        ensures { result ≡ record { sent = []; got = []; due = [] } }
    {
        SteadyLink {
            link: ScriptLink::new(alloc, script, Vec::new(alloc)),
        }
    }

    /// From now on receives give pieces of these sizes in turn, where a size 0 counts as 1, and then of any size.
    pub fn cut(&mut self, sizes: Sizes)
        ensures { self.new ≡ self.old }
    {
        self.link.cut(sizes);
    }

    /// What was sent.
    pub fn sent(&self) -> &[u8]
        ensures { result.now ≡ self.now.sent }
    {
        self.link.sent()
    }
}

impl Link for SteadyLink {
    ghost use Rattle.std.specs.Prelude.{Some};

    ghost told = { λ s. Some s };

    ghost faults = { λ _. 0 };

    fn open(&mut self, alloc: Global, address: &str) -> Result<(), Stop> {
        self.link.open(alloc, address)
    }

    fn send(&mut self, alloc: Global, bytes: &[u8]) -> Result<(), Stop> {
        self.link.send(alloc, bytes)
    }

    fn receive(&mut self, buf: &mut [u8]) -> Result<usize, Failed> {
        self.link.receive(buf)
    }
}

/// A door in memory that never fails.
#[derive(Drop)]
pub struct SteadyDoor {
    door: MemoryDoor,
}

impl Model for SteadyDoor {
    ghost use Rattle.std.specs.Prelude.{◌≡◌, []};
    ghost use Rattle.spl_outside.specs.Peers.{SteadyState};

    ghost Value = { SteadyState };

    ghost view = { λ s. record { visits = s.door.visits; present = s.door.present } };

    ghost invariant = { λ s. s.door.failing.numbers ≡ [] };
}

impl SteadyDoor {
    ghost use Rattle.std.specs.Prelude.{◌≡◌, ◌≤◌, [], false, length, map, slice_index_or, MatchOption};
    ghost use Rattle.spl_outside.specs.Wire.{sent_on_each};

    /// No connection has come; the bytes of each.
    pub fn new(alloc: Global, connections: Vec<Vec<u8>>) -> Self
        ensures coming { result.visits.coming ≡ map (λ v. v.items) connections.items }
        ensures begun { result.visits.begun ≡ false }
        ensures earlier { result.visits.earlier ≡ [] }
        ensures present { result.present ≡ false }
    {
        SteadyDoor {
            door: MemoryDoor::new(alloc, connections, Vec::new(alloc)),
        }
    }

    /// From now on receives give pieces of these sizes in turn, where a size 0 counts as 1, and then of any size.
    pub fn cut(&mut self, sizes: Sizes)
        ensures { self.new ≡ self.old }
    {
        self.door.cut(sizes);
    }

    /// The bytes sent on a connection that has come, counted from 0.
    pub fn sent(&self, connection: u32) -> Option<&[u8]>
        ensures { MatchOption result (length (sent_on_each self.now.visits) ≤ connection) (λ b. b.now ≡ slice_index_or (sent_on_each self.now.visits) connection []) }
    {
        self.door.sent(connection)
    }
}

impl Door for SteadyDoor {
    ghost use Rattle.std.specs.Prelude.{Some};

    ghost told = { λ s. Some s.visits };

    ghost present = { λ s. s.present };

    ghost faults = { λ _. 0 };

    ghost losses = { λ _. 0 };

    fn open(&mut self, alloc: Global, address: &str) -> Result<(), Stop> {
        self.door.open(alloc, address)
    }

    fn next_connection(&mut self) -> Result<bool, Failed> {
        self.door.next_connection()
    }

    fn receive(&mut self, buf: &mut [u8]) -> Result<usize, Failed> {
        self.door.receive(buf)
    }

    fn send(&mut self, alloc: Global, bytes: &[u8]) -> Result<(), Stop> {
        self.door.send(alloc, bytes)
    }
}
