//! Connections: a link that is opened, and a door where others come in.
//!
//! What goes over one is told as three lists: the bytes sent, the bytes taken from the peer, and the peer's
//! bytes that are due.
ghost use Rattle.std.specs.Prelude.{◌≡◌, ◌≤◌, ◌<◌, ℕ, Bool, Option, length, IfSome, IfOk, IsErr, IsErrOf, IsSomeAnd, IsTrue};
ghost use Rattle.std.specs.Bool.{OnTrue};
ghost use Rattle.spl_outside.specs.Causes.{Counts};
ghost use Rattle.spl_outside.specs.Wire.{Wire, Visits, Sends, Receives, NextComes, TakesIn, SendsOut};

use crate::{Failed, Stop};
use std::alloc::Global;

/// A connection that this program opens.
pub trait Link {
    /// What the two ends have sent each other, where it is told.
    ghost told: { Self → Option Wire };

    /// How many calls have failed, up to 2^64 - 1.
    ghost faults: { Self → ℕ };

    /// Connects to the address.
    fn open(&mut self, alloc: Global, address: &str) -> Result<(), Stop>
        ensures stays { told self.new ≡ told self.old }
        ensures cause { Counts (faults self.old) (faults self.new) (IsErrOf result Stop.Failed) };

    /// Appends the bytes to those sent.
    ///
    /// After an error some first ones of them were appended.
    fn send(&mut self, alloc: Global, bytes: &[u8]) -> Result<(), Stop>
        ensures content { IfSome (told self.old) (λ w. IsSomeAnd (told self.new) (λ n. Sends w bytes.now n result)) }
        ensures cause { Counts (faults self.old) (faults self.new) (IsErrOf result Stop.Failed) };

    /// Moves some first ones of the bytes due to the front of the buffer, at least one where there is
    /// one, and says how many; 0 only at the end.
    ///
    /// A call that fails takes none.
    fn receive(&mut self, buf: &mut [u8]) -> Result<usize, Failed>
        requires { 0 < length buf.old }
        ensures content { IfSome (told self.old) (λ w. IsSomeAnd (told self.new) (λ n. Receives w buf.new n result)) }
        ensures bound { IfOk result (λ k. k ≤ length buf.new) }
        ensures cause { Counts (faults self.old) (faults self.new) (IsErr result) };
}

/// A place where connections come in, one after the other.
pub trait Door {
    /// What has come and is still to come, where it is told.
    ghost told: { Self → Option Visits };

    /// There is a present connection.
    ghost present: { Self → Bool };

    /// How many times the door has failed, up to 2^64 - 1.
    ghost faults: { Self → ℕ };

    /// How many calls on a connection have failed, up to 2^64 - 1.
    ghost losses: { Self → ℕ };

    /// Opens the door at the address.
    fn open(&mut self, alloc: Global, address: &str) -> Result<(), Stop>
        ensures stays { told self.new ≡ told self.old }
        ensures present { present self.new ≡ present self.old }
        ensures losses { losses self.new ≡ losses self.old }
        ensures cause { Counts (faults self.old) (faults self.new) (IsErrOf result Stop.Failed) };

    /// Goes to the next connection; `false` where none is to come.
    fn next_connection(&mut self) -> Result<bool, Failed>
        ensures content { IfSome (told self.old) (λ v. IsSomeAnd (told self.new) (λ n. NextComes v n result)) }
        ensures present { IfOk result (λ b. OnTrue b (IsTrue (present self.new))) }
        ensures losses { losses self.new ≡ losses self.old }
        ensures cause { Counts (faults self.old) (faults self.new) (IsErr result) };

    /// Moves some first ones of the present connection's bytes due to the front of the buffer, at least
    /// one where there is one, and says how many; 0 only at the end.
    fn receive(&mut self, buf: &mut [u8]) -> Result<usize, Failed>
        requires room { 0 < length buf.old }
        requires present { IsTrue (present self.old) }
        ensures content { IfSome (told self.old) (λ v. IsSomeAnd (told self.new) (λ n. TakesIn v buf.new n result)) }
        ensures bound { IfOk result (λ k. k ≤ length buf.new) }
        ensures present { present self.new ≡ present self.old }
        ensures faults { faults self.new ≡ faults self.old }
        ensures cause { Counts (losses self.old) (losses self.new) (IsErr result) };

    /// Appends the bytes to those sent on the present connection.
    ///
    /// After an error some first ones of them were appended.
    fn send(&mut self, alloc: Global, bytes: &[u8]) -> Result<(), Stop>
        requires present { IsTrue (present self.old) }
        ensures content { IfSome (told self.old) (λ v. IsSomeAnd (told self.new) (λ n. SendsOut v bytes.now n result)) }
        ensures present { present self.new ≡ present self.old }
        ensures faults { faults self.new ≡ faults self.old }
        ensures cause { Counts (losses self.old) (losses self.new) (IsErrOf result Stop.Failed) };
}
