//! A link in memory, whose peer follows a script.
ghost use Rattle.std.specs.Prelude.{◌≡◌, ◌↔◌, ◌++◌, [], Some, drop, IfOk, IfErr, IsErr, IsErrOf, IsTrue, OnOk, length, ◌≤◌, ◌<◌};
ghost use Rattle.spl_outside.specs.Causes.{Counts};
ghost use Rattle.spl_outside.specs.Fails.{fails_next, after_call};
ghost use Rattle.spl_outside.specs.Peers.{first_of, IsPiece};
ghost use Rattle.spl_outside.specs.Wire.{Sends, Receives};

use crate::fails::Fails;
use crate::input::PeerInput;
use crate::sizes::Pieces;
use crate::{Failed, Link, Sizes, Stop};
use std::alloc::Global;
use std::marker::Model;

/// A link whose k-th list of the script comes due at the k-th send that succeeds, where chosen calls fail.
///
/// The calls of the trait are counted from 1. A call that fails changes nothing.
#[derive(Drop)]
pub struct ScriptLink {
    script: Vec<Vec<u8>>,
    next: usize,
    input: PeerInput,
    sent: Vec<u8>,
    pieces: Pieces,
    fails: Fails,
}

impl Model for ScriptLink {
    ghost use Rattle.std.specs.Prelude.{drop, map};
    ghost use Rattle.spl_outside.specs.Peers.{LinkState};

    ghost Value = { LinkState };

    ghost view = { λ s. record { wire = record { sent = s.sent.items; got = s.input.got; due = s.input.due }; script = drop s.next (map (λ v. v.items) s.script.items); pieces = s.pieces; failing = s.fails } };
}

impl ScriptLink {
    ghost use Rattle.std.specs.Prelude.{map};
    ghost use Rattle.spl_outside.specs.Fails.{none_yet};

    /// Nothing was sent; the script, and the numbers of the calls that are to fail.
    pub fn new(alloc: Global, script: Vec<Vec<u8>>, fails: Vec<u64>) -> Self
        ensures { result ≡ record { wire = record { sent = []; got = []; due = [] }; script = map (λ v. v.items) script.items; pieces = []; failing = none_yet fails.items } }
    {
        ScriptLink {
            script,
            next: 0,
            input: PeerInput::new(Vec::new(alloc)),
            sent: Vec::new(alloc),
            pieces: Pieces::whole(alloc),
            fails: Fails::new(fails),
        }
    }

    /// From now on the receives that succeed give pieces of these sizes in turn, where a size 0 counts as 1, and
    /// then of any size.
    pub fn cut(&mut self, sizes: Sizes)
        ensures { self.new ≡ record { wire = self.old.wire; script = self.old.script; pieces = sizes; failing = self.old.failing } }
    {
        self.pieces = Pieces::new(sizes);
    }

    /// What was sent.
    pub fn sent(&self) -> &[u8]
        ensures { result.now ≡ self.now.wire.sent }
    {
        &self.sent
    }

    /// Appends the bytes to those sent, and the script's next list to those due.
    fn append(&mut self, bytes: &[u8]) -> Result<(), Stop>
        ensures sends { Sends self.old.wire bytes.now self.new.wire result }
        ensures due { OnOk result (self.new.wire.due ≡ self.old.wire.due ++ first_of self.old.script) }
        ensures script { OnOk result (self.new.script ≡ drop 1 self.old.script) }
        ensures pieces { self.new.pieces ≡ self.old.pieces }
        ensures failing { self.new.failing ≡ self.old.failing }
        ensures memory { IfErr result (λ e. e ≡ Stop.OutOfMemory) }
    {
        match self.sent.extend_from_slice(bytes) {
            Ok(()) => {}
            Err(_) => return Err(Stop::OutOfMemory),
        }
        if self.next < self.script.len() {
            match self.input.add(&self.script[self.next]) {
                Ok(()) => {}
                Err(_) => return Err(Stop::OutOfMemory),
            }
            self.next += 1;
        }
        Ok(())
    }
}

impl Link for ScriptLink {
    ghost told = { λ s. Some s.wire };

    ghost faults = { λ s. s.failing.faults };

    fn open(&mut self, _alloc: Global, _address: &str) -> Result<(), Stop>
        ensures stays { self.new.wire ≡ self.old.wire }
        ensures cause { Counts self.old.failing.faults self.new.failing.faults (IsErrOf result Stop.Failed) }

        // The calls that fail are those with the numbers given.
        ensures fails { IsErr result ↔ IsTrue (fails_next self.old.failing) }
        ensures script { self.new.script ≡ self.old.script }
        ensures pieces { self.new.pieces ≡ self.old.pieces }
        ensures counts { self.new.failing ≡ after_call self.old.failing }
    {
        if self.fails.comes() {
            return Err(Stop::Failed);
        }
        Ok(())
    }

    fn send(&mut self, _alloc: Global, bytes: &[u8]) -> Result<(), Stop>
        ensures content { Sends self.old.wire bytes.now self.new.wire result }
        ensures cause { Counts self.old.failing.faults self.new.failing.faults (IsErrOf result Stop.Failed) }

        // The calls that fail are those with the numbers given; the script goes on where a call succeeds.
        ensures fails { IsErrOf result Stop.Failed ↔ IsTrue (fails_next self.old.failing) }
        ensures due { OnOk result (self.new.wire.due ≡ self.old.wire.due ++ first_of self.old.script) }
        ensures script { OnOk result (self.new.script ≡ drop 1 self.old.script) }
        ensures pieces { self.new.pieces ≡ self.old.pieces }
        ensures counts { self.new.failing ≡ after_call self.old.failing }
    {
        if self.fails.comes() {
            return Err(Stop::Failed);
        }
        self.append(bytes)
    }

    fn receive(&mut self, buf: &mut [u8]) -> Result<usize, Failed>
        requires { 0 < length buf.old }
        ensures content { Receives self.old.wire buf.new self.new.wire result }
        ensures bound { IfOk result (λ k. k ≤ length buf.new) }
        ensures cause { Counts self.old.failing.faults self.new.failing.faults (IsErr result) }

        // The calls that fail are those with the numbers given.
        ensures fails { IsErr result ↔ IsTrue (fails_next self.old.failing) }
        ensures script { self.new.script ≡ self.old.script }
        ensures piece { IfOk result (IsPiece self.old.pieces) }
        ensures pieces { OnOk result (self.new.pieces ≡ drop 1 self.old.pieces) }
        ensures counts { self.new.failing ≡ after_call self.old.failing }
    {
        if self.fails.comes() {
            return Err(Failed);
        }
        let size = self.pieces.next_size();
        Ok(self.input.take(size, buf))
    }
}
