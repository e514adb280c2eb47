//! A door in memory.
ghost use Rattle.std.specs.Prelude.{◌≡◌, ◌≤◌, ◌<◌, ◌↔◌, [], false, length, map, drop, Some, IfOk, IsErr, IsErrOf, IsTrue, MatchOption, OnOk, OnErr, slice_index_or};
ghost use Rattle.std.specs.Bool.{OnTrue};
ghost use Rattle.spl_outside.specs.Causes.{Counts};
ghost use Rattle.spl_outside.specs.Fails.{fails_next, after_call, after_call_alone};
ghost use Rattle.spl_outside.specs.Peers.{IsPiece};
ghost use Rattle.spl_outside.specs.Wire.{sent_on_each, NextComes, TakesIn, SendsOut};

use crate::fails::Fails;
use crate::input::PeerInput;
use crate::rooms::RoomList;
use crate::sizes::Pieces;
use crate::{Door, Failed, Sizes, Stop};
use std::alloc::Global;
use std::marker::Model;

/// A door at which connections with the bytes given come in, where chosen calls fail.
///
/// The calls of the trait are counted from 1. A call that fails changes nothing but the counts, and after
/// a failed `next_connection` none is present.
#[derive(Drop)]
pub struct MemoryDoor {
    alloc: Global,
    rooms: RoomList,
    input: PeerInput,
    present: bool,
    pieces: Pieces,
    fails: Fails,
    losses: u64,
}

impl Model for MemoryDoor {
    ghost use Rattle.std.specs.Prelude.{◌<◌, IsTrue};
    ghost use Rattle.spl_outside.specs.Peers.{DoorState, visits_of};

    ghost Value = { DoorState };

    ghost view = { λ s. record { visits = visits_of s.rooms s.input; present = s.present; pieces = s.pieces; failing = s.fails; losses = s.losses } };

    ghost invariant = { λ s. IsTrue s.present → 0 < s.rooms.begun };
}

impl MemoryDoor {
    ghost use Rattle.spl_outside.specs.Fails.{none_yet};

    /// No connection has come; the bytes of each, and the numbers of the calls that are to fail.
    pub fn new(alloc: Global, connections: Vec<Vec<u8>>, fails: Vec<u64>) -> Self
        ensures coming { result.visits.coming ≡ map (λ v. v.items) connections.items }
        ensures begun { result.visits.begun ≡ false }
        ensures earlier { result.visits.earlier ≡ [] }
        ensures present { result.present ≡ false }
        ensures pieces { result.pieces ≡ [] }
        ensures failing { result.failing ≡ none_yet fails.items }
        ensures losses { result.losses ≡ 0 }
    {
        MemoryDoor {
            alloc,
            rooms: RoomList::new(connections),
            input: PeerInput::new(Vec::new(alloc)),
            present: false,
            pieces: Pieces::whole(alloc),
            fails: Fails::new(fails),
            losses: 0,
        }
    }

    /// From now on the receives that succeed give pieces of these sizes in turn, where a size 0 counts as 1, and
    /// then of any size.
    pub fn cut(&mut self, sizes: Sizes)
        ensures { self.new ≡ record { visits = self.old.visits; present = self.old.present; pieces = sizes; failing = self.old.failing; losses = self.old.losses } }
    {
        self.pieces = Pieces::new(sizes);
    }

    /// The bytes sent on a connection that has come, counted from 0.
    pub fn sent(&self, connection: u32) -> Option<&[u8]>
        ensures { MatchOption result (length (sent_on_each self.now.visits) ≤ connection) (λ b. b.now ≡ slice_index_or (sent_on_each self.now.visits) connection []) }
    {
        self.rooms.sent(connection as usize)
    }
}

impl Door for MemoryDoor {
    ghost told = { λ s. Some s.visits };

    ghost present = { λ s. s.present };

    ghost faults = { λ s. s.failing.faults };

    ghost losses = { λ s. s.losses };

    fn open(&mut self, _alloc: Global, _address: &str) -> Result<(), Stop>
        ensures stays { self.new.visits ≡ self.old.visits }
        ensures present { self.new.present ≡ self.old.present }
        ensures losses { self.new.losses ≡ self.old.losses }
        ensures cause { Counts self.old.failing.faults self.new.failing.faults (IsErrOf result Stop.Failed) }

        // The calls that fail are those with the numbers given.
        ensures fails { IsErr result ↔ IsTrue (fails_next self.old.failing) }
        ensures pieces { self.new.pieces ≡ self.old.pieces }
        ensures counts { self.new.failing ≡ after_call self.old.failing }
    {
        if self.fails.comes() {
            return Err(Stop::Failed);
        }
        Ok(())
    }

    fn next_connection(&mut self) -> Result<bool, Failed>
        ensures content { NextComes self.old.visits self.new.visits result }
        ensures present { IfOk result (λ b. OnTrue b (IsTrue self.new.present)) }
        ensures losses { self.new.losses ≡ self.old.losses }
        ensures cause { Counts self.old.failing.faults self.new.failing.faults (IsErr result) }

        // The calls that fail are those with the numbers given.
        ensures fails { IsErr result ↔ IsTrue (fails_next self.old.failing) }
        ensures pieces { self.new.pieces ≡ self.old.pieces }
        ensures counts { self.new.failing ≡ after_call self.old.failing }
    {
        if self.fails.comes() {
            self.present = false;
            return Err(Failed);
        }
        match self.rooms.next(self.alloc) {
            Some(bytes) => {
                self.input = PeerInput::new(bytes);
                self.present = true;
                Ok(true)
            }
            None => {
                self.present = false;
                Ok(false)
            }
        }
    }

    fn receive(&mut self, buf: &mut [u8]) -> Result<usize, Failed>
        requires room { 0 < length buf.old }
        requires present { IsTrue self.old.present }
        ensures content { TakesIn self.old.visits buf.new self.new.visits result }
        ensures bound { IfOk result (λ k. k ≤ length buf.new) }
        ensures present { self.new.present ≡ self.old.present }
        ensures faults { self.new.failing.faults ≡ self.old.failing.faults }
        ensures cause { Counts self.old.losses self.new.losses (IsErr result) }

        // The calls that fail are those with the numbers given.
        ensures fails { IsErr result ↔ IsTrue (fails_next self.old.failing) }
        ensures piece { IfOk result (IsPiece self.old.pieces) }
        ensures pieces { OnOk result (self.new.pieces ≡ drop 1 self.old.pieces) }
        ensures counts { self.new.failing ≡ after_call_alone self.old.failing }
    {
        if self.fails.comes_alone() {
            self.losses = self.losses.saturating_add(1);
            return Err(Failed);
        }
        let size = self.pieces.next_size();
        Ok(self.input.take(size, buf))
    }

    fn send(&mut self, _alloc: Global, bytes: &[u8]) -> Result<(), Stop>
        requires present { IsTrue self.old.present }
        ensures content { SendsOut self.old.visits bytes.now self.new.visits result }
        ensures present { self.new.present ≡ self.old.present }
        ensures faults { self.new.failing.faults ≡ self.old.failing.faults }
        ensures cause { Counts self.old.losses self.new.losses (IsErrOf result Stop.Failed) }

        // The calls that fail are those with the numbers given, and they send nothing.
        ensures fails { IsErrOf result Stop.Failed ↔ IsTrue (fails_next self.old.failing) }
        ensures pieces { self.new.pieces ≡ self.old.pieces }
        ensures counts { self.new.failing ≡ after_call_alone self.old.failing }
        ensures none { OnErr result (self.new.visits ≡ self.old.visits) }
    {
        if self.fails.comes_alone() {
            self.losses = self.losses.saturating_add(1);
            return Err(Stop::Failed);
        }
        match self.rooms.add(bytes) {
            Ok(()) => {}
            Err(_) => return Err(Stop::OutOfMemory),
        }
        Ok(())
    }
}
