//! The bytes of a peer in memory.
ghost use Rattle.std.specs.Prelude.{◌≡◌, ◌++◌, [], length, take, min, OnOk, OnErr};
ghost use Rattle.spl_outside.specs.Peers.{input_after};

use std::alloc::{AllocError, Global};
use std::marker::Model;

/// Bytes that are taken from the front.
#[derive(Drop)]
pub struct PeerInput {
    bytes: Vec<u8>,
    taken: usize,
}

impl Model for PeerInput {
    ghost use Rattle.std.specs.Prelude.{◌≤◌, length, take, drop};
    ghost use Rattle.spl_outside.specs.Peers.{Input};

    ghost Value = { Input };

    ghost view = { λ s. record { got = take s.taken s.bytes.items; due = drop s.taken s.bytes.items } };

    ghost invariant = { λ s. s.taken ≤ length s.bytes.items };
}

impl PeerInput {
    /// These bytes are due.
    pub fn new(bytes: Vec<u8>) -> Self
        ensures got { result.got ≡ [] }
        ensures due { result.due ≡ bytes.items }
    {
        PeerInput { bytes, taken: 0 }
    }

    /// More bytes come due.
    pub fn add(&mut self, more: &[u8]) -> Result<(), AllocError>
        ensures got { self.new.got ≡ self.old.got }
        ensures ok { OnOk result (self.new.due ≡ self.old.due ++ more.now) }
        ensures err { OnErr result (self.new ≡ self.old) }
    {
        match self.bytes.extend_from_slice(more) {
            Ok(()) => Ok(()),
            Err(error) => Err(error),
        }
    }

    /// Moves bytes to the front of the buffer: at most so many, as many as there are and as it has room for.
    pub fn take(&mut self, most: usize, buf: &mut [u8]) -> usize
        ensures count { result ≡ min most (min (length buf.old) (length self.old.due)) }
        ensures input { self.new ≡ input_after result self.old }
        ensures bytes { take result buf.new ≡ take result self.old.due }
    {
        let rest = &self.bytes[self.taken..];
        let count = most.min(buf.len().min(rest.len()));
        buf[..count].copy_from_slice(&rest[..count]);
        self.taken += count;
        count
    }
}
